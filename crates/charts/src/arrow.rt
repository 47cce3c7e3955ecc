// A move line as a chart keeps it.
ghost use Rattle.std.specs.Prelude.{◌≡◌, ◌≤◌};
ghost use Rattle.charts.specs.Lines.{fits};

// In the situations of the mask, the action leads from a state to a state.
#[derive(Clone, Copy)]
pub struct Arrow {
    pub from: u8,
    pub mask: u64,
    pub action: u8,
    pub to: u8,
    // A state fits a byte, so that it fits the 64 bits of a code.
    ghost short: { to ≤ 255 },
}

// What stands in each place that no move line has filled. By hand, since a derive does not reach over a ghost field.
impl Default for Arrow {
    fn default() -> Arrow {
        Arrow {
            from: 0,
            mask: 0,
            action: 0,
            to: 0,
        }
    }
}

impl Arrow {
    // Whether the arrow leads on from a state by an action done in a situation.
    pub fn fits(self, state: u64, situation: u8, action: u8) -> bool
        ensures fits { result ≡ fits self.from self.mask self.action state situation action }
    {
        u64::from(self.from) == state && masks::has(self.mask, situation) && self.action == action
    }
}
