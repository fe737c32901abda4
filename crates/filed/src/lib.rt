// Calendar files for other languages: the import and the export in one number, the line of a refusal in a lent place.
#![tactic(auto)]

ghost use Rattle.filed.specs.Filed.{Filed, Published};

use crossing::answers::{self, one_number};
use refusal::Refusal;

pub fn import(file: &[u8], list: &mut [u32], line: &mut [u32]) -> i64
    ensures { Filed file.now list.old line.old result list.new line.new }
{
    if line.len() == 0 {
        return answers::refused(Refusal::Room);
    }
    match holidays::import(file, list) {
        Ok(n) => {
            line[0] = 0;
            i64::from(n)
        }
        Err(fault) => {
            line[0] = fault.line;
            answers::refused(fault.refusal)
        }
    }
}

pub fn export(list: &[u32], file: &mut [u8]) -> i64
    ensures { Published list.now file.old result file.new }
{
    one_number(publishing::export(list, file))
}
