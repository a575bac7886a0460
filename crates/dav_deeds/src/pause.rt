ghost use Rattle.std.specs.Prelude.{◌≡◌, ◌≤◌, ◌+◌};
ghost use Rattle.dav_deeds.specs.Effects.{moment, doubled as doubled_lem, pause as pause_lem};

/// The moment so many seconds later, up to the greatest that there is.
pub fn later(now: u64, seconds: u64) -> u64
    ensures { result ≡ moment (now + seconds) }
{
    now.saturating_add(seconds)
}

/// How many seconds to wait after this many attempts.
pub fn pause(attempts: u32, after: u64) -> u64
    requires { 1 ≤ attempts }
    ensures { result ≡ pause_lem attempts after }
{
    doubled(attempts).max(after.min(3600))
}

// 30 seconds, doubled with each attempt, up to 300.
fn doubled(attempts: u32) -> u64
    requires { 1 ≤ attempts }
    ensures { result ≡ doubled_lem attempts }
{
    if attempts > 4 {
        300
    } else if attempts == 1 {
        30
    } else if attempts == 2 {
        60
    } else if attempts == 3 {
        120
    } else {
        240
    }
}
