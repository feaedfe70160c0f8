//! What a failed login costs.
ghost use Rattle.std.specs.Prelude.{◌≡◌};
ghost use Rattle.mpw_admission.specs.Login.{login_delay};

/// How many milliseconds pass before the reply to a failed login.
pub const FAILED_LOGIN: u64 = 1000;

/// How many milliseconds pass before a reply: a second if it denies a login, else none.
pub fn login_delay(is_login: bool, is_denied: bool) -> u64
    ensures { result ≡ login_delay is_login is_denied }
{
    if is_login && is_denied {
        FAILED_LOGIN
    } else {
        0
    }
}
