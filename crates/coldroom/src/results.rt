// The one number that a call hands back for a refusal, or for what a controller answers.
ghost use Rattle.std.specs.Prelude.{◌≡◌};
ghost use Rattle.waits.specs.Numbers.{Small};
ghost use Rattle.coldroom.specs.Small.{SmallAnswer};
ghost use Rattle.coldroom.specs.Results.{refusal as refusal_of, answer as answer_of};

use step::{Answer, code};
use waits::Refusal;

// What a call hands back that isn't refused is this number and more.
pub const PLUS: u64 = 65_536;

pub fn refusal(r: Refusal) -> u64
    requires { Small r }
    ensures { result ≡ refusal_of r }
{
    r.reason.number() + 256 * r.row.0 as u64
}

pub fn answer(a: Result<Answer, Refusal>) -> u64
    requires { SmallAnswer a }
    ensures { result ≡ answer_of a }
{
    match a {
        Err(r) => refusal(r),
        Ok(_) => PLUS + code(a),
    }
}
