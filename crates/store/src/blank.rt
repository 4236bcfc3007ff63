// Values that are copied and have one default, the blank: a list's vacated places hold it.
ghost use Rattle.std.specs.Prelude.{◌≡◌, pos};

pub trait Blank: Copy + Default {
    ghost blank: { Self };

    fn vacant() -> Self
        ensures { result ≡ blank }
    {
        Self::default()
    }

    // What each `impl` shows: there is no other default.
    ghost only: { (x : Self) → Self.is_default x → x ≡ blank };
}

impl Blank for i16 {
    ghost blank = { pos 0 };

    ghost only = { λ x default. default };
}

impl Blank for u32 {
    ghost blank = { 0 };

    ghost only = { λ x default. default };
}
