// Requests in numbers; a unit, a rule, a convention or a flag outside its list is 17.
ghost use Rattle.std.specs.Prelude.{◌≡◌};
ghost use Rattle.refusal.specs.Answer.{answered};
ghost use Rattle.crossing.specs.Requests.{request_of};

use date::Date;
use period::Period;
use refusal::Refusal;
use steps::Request;

// Length and unit of the tenor, the convention of the last date and the anchors among them: the eleven numbers that C hands over.
#[tactic(auto, unfolding(crate::specs::Requests::request_of, refusal::specs::Answer::then))]
pub fn request_of(
    effective: u32,
    termination: u32,
    tenor: i32,
    unit: u8,
    rule: u8,
    convention: u8,
    terminal: u8,
    monthend: u8,
    first: u32,
    penultimate: u32,
    mask: u8,
) -> Result<Request, Refusal>
    ensures { answered result ≡ request_of effective termination tenor unit rule convention terminal monthend first penultimate mask }
{
    let unit = crate::unit_of(unit)?;
    let rule = crate::rule_of(rule)?;
    let convention = crate::convention_of(convention)?;
    let terminal = crate::convention_of(terminal)?;
    let monthend = crate::flag_of(monthend)?;
    Ok(Request {
        effective: Date { day: effective },
        termination: Date { day: termination },
        tenor: Period {
            length: tenor,
            unit,
        },
        rule,
        convention,
        terminal,
        monthend,
        first: Date { day: first },
        penultimate: Date { day: penultimate },
        mask,
    })
}
