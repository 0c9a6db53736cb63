// A window's start from two numbers: whether it is known, and where it is.
ghost use Rattle.std.specs.Prelude.{◌≡◌};
ghost use Rattle.telling.specs.Starts.{given_start};

pub fn window_start(known: u8, start: usize) -> Option<usize>
    ensures { result ≡ given_start known start }
{
    if known == 0 {
        return None;
    }
    Some(start)
}
