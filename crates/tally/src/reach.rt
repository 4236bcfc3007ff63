ghost use Rattle.std.specs.Prelude.{◌≡◌};
ghost use Rattle.std.specs.Option.{unwrap_or};

// Some neighbouring slots of a node: their size is that of the child's slots from..to, and `bare` entries more.
// Two numbers, since a `Range` is not Copy.
#[derive(Clone, Copy)]
pub struct Reach {
    pub slots: usize,
    pub from: usize,
    pub to: usize,
    pub bare: usize,
}

impl Reach {
    // So many slots over a span of the child, if they have elements.
    pub fn over(slots: usize, span: Option<(usize, usize)>, bare: usize) -> Reach
        ensures { result ≡ record { slots = slots; from = (unwrap_or span (0, 0)).0; to = (unwrap_or span (0, 0)).1; bare = bare } }
    {
        let (from, to) = span.unwrap_or((0, 0));
        Reach {
            slots,
            from,
            to,
            bare,
        }
    }
}
