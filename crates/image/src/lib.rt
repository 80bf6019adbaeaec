// The calls by name. The definitions of the calls, the image of a place and the theorem over lists of calls are in specs/.
#![tactic(auto)]

ghost use Rattle.std.specs.Prelude.{◌≡◌};
ghost use Rattle.image.specs.Call.{machine_call};
ghost use Rattle.image.specs.Replay.{call_of};

#[derive(Clone, Copy, Debug, PartialEq, Eq, Hash)]
pub enum Call {
    // so many places on
    Advance(u32),
    // so many places back
    Back(u32),
    Mark,
    // to the mark
    Return,
}

// The call that two numbers name: its kind (0 advance, 1 back, 2 mark, any other return) and its k.
impl From<(u32, u32)> for Call {
    ghost from_gives = { λ named call. machine_call call ≡ call_of named.0 named.1 };

    fn from(named: (u32, u32)) -> Call {
        match named {
            (0, k) => Call::Advance(k),
            (1, k) => Call::Back(k),
            (2, _) => Call::Mark,
            _ => Call::Return,
        }
    }
}
