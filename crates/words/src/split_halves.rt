// Bytes parted by the last blank, colon and blank that they have.
ghost use Rattle.std.specs.Prelude.{◌≡◌};
ghost use Rattle.std.specs.Option.{option_map};
ghost use Rattle.words.specs.Halves.{halves_of, shown};

// The bytes on both sides.
#[derive(Clone, Copy)]
pub struct Halves<'a> {
    pub front: &'a [u8],
    pub behind: &'a [u8],
}

// The two parts, where there are two.
pub fn part_in_two<'a>(bytes: &'a [u8]) -> Option<Halves<'a>>
    ensures parted_at_the_last { option_map shown result ≡ halves_of bytes.now }
{
    for i in (0..bytes.len()).rev() {
        let (front, rest) = bytes.split_at(i);
        if let Some(behind) = rest.strip_prefix(b" : ") {
            return Some(Halves { front, behind });
        }
    }
    None
}
