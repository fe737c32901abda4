// Closed dates from and to calendar files (RFC 5545).
ghost use Rattle.filed.specs.Filed.{Filed, Published};

// How many days of the file's all-day events stand at the start of `days`. The first place of `line` has the line of a refusal, 0
// where there is none or where it is for no line.
#[unsafe(no_mangle)]
pub extern "C" fn heronspan_holidays_import(file: &[u8], days: &mut [u32], line: &mut [u32]) -> i64
    ensures { Filed file.now days.old line.old result days.new line.new }
{
    capi::files::heronspan_holidays_import(file, days, line)
}

// How many bytes of the closed dates' calendar file stand at the start of `file`.
#[unsafe(no_mangle)]
pub extern "C" fn heronspan_holidays_export(closed: &[u32], file: &mut [u8]) -> i64
    ensures { Published closed.now file.old result file.new }
{
    capi::files::heronspan_holidays_export(closed, file)
}
