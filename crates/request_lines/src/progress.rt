ghost use Rattle.std.specs.Prelude.{◌*◌, ◌^◌, ◌≤◌};

/// The lines that are answered and the bytes that are written so far.
#[derive(Clone, Copy)]
pub struct Progress {
    pub lines: u128,
    pub written: u128,
    ghost room: { written ≤ lines * 2 ^ 64 },
}
