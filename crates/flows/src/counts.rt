// How many situations and actions a flow has.
ghost use Rattle.std.specs.Prelude.{◌≡◌, ◌≤◌};
ghost use Rattle.std.specs.Option.{option_map};
ghost use Rattle.flows.specs.Counted.{counted};

// The limits of every flow.
const MOST_SITUATIONS: u8 = 64;

const MOST_ACTIONS: u8 = 16;

// The two counts, within the limits of every flow. Whoever makes a flow takes them as this type, and so need not refuse
// counts beyond the limits. Where both limits are known already, the two fields are written down; elsewhere see `new`.
#[derive(Clone, Copy)]
pub struct Counts {
    // Situations are numbered from 0 to before this.
    pub situations: u8,
    // Actions are numbered from 0 to before this.
    pub actions: u8,
    ghost some: { 1 ≤ situations },
    ghost most: { situations ≤ 64 },
    ghost few: { actions ≤ 16 },
}

impl Counts {
    // The counts, where they are within the limits: 1 to 64 situations, and at most 16 actions.
    pub fn new(situations: u8, actions: u8) -> Option<Counts>
        ensures counts { option_map (λ c. (c.situations, c.actions)) result ≡ counted situations actions }
    {
        if (1..=MOST_SITUATIONS).contains(&situations) && actions <= MOST_ACTIONS {
            Some(Counts {
                situations,
                actions,
            })
        } else {
            None
        }
    }
}
