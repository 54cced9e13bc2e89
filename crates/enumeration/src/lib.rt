// Why a run stopped; a run is defined in specs/Run.antt.
#![tactic(auto)]

ghost use Rattle.std.specs.Prelude.{◌≡◌};
ghost use Rattle.enumeration.specs.Run.{stop_number};

#[derive(Clone, Copy, Debug, PartialEq, Eq)]
pub enum Stop {
    Done = 101,
    Limit = 102,
    Spent = 103,
    Full = 104,
}

// The stop's number.
pub fn stop_number(stop: Stop) -> u32
    ensures { result ≡ stop_number stop }
{
    stop as u32
}
