// The entries: the six services on bytes and words, one thin function each. `sagepliers_c` exports them to C, and `include/sagepliers.h` documents them.
#![tactic(auto)]

pub mod files;

ghost use Rattle.sagepliers.specs.Entry.{CheckNumber, PushNumber, SolveNumber, KernelNumber, ComposeNumber, NameNumber};

pub use encoding::point_number;
use services::Point;

pub fn sagepliers_check(bytes: &[u8]) -> u32
    ensures { CheckNumber bytes.now result }
{
    encoding::verdict_number(files::check(bytes))
}

pub fn sagepliers_push(bytes: &[u8], point: u64) -> u64
    ensures { PushNumber bytes.now point result }
{
    let image = files::push(bytes, point);
    let Ok(Point::Affine(u, v)) = image else {
        let Err(refusal) = image else {
            return files::INFINITY;
        };
        return encoding::refusal(refusal);
    };
    encoding::point_number(u, v)
}

pub fn sagepliers_solve(sheet: &[u32], answer: &mut [u32]) -> u64
    ensures { SolveNumber sheet.now answer.old answer.new result }
{
    encoding::written_number(services::solve(sheet, answer))
}

pub fn sagepliers_kernel(sheet: &[u32], answer: &mut [u32]) -> u64
    ensures { KernelNumber sheet.now answer.old answer.new result }
{
    encoding::written_number(services::kernel(sheet, answer))
}

pub fn sagepliers_compose(first: &[u32], second: &[u32], answer: &mut [u32]) -> u64
    ensures { ComposeNumber first.now second.now answer.old answer.new result }
{
    encoding::written_number(services::compose(first, second, answer))
}

pub fn sagepliers_name(p: u32, a: u32, b: u32) -> u64
    ensures { NameNumber p a b result }
{
    encoding::written_number(services::name(p, a, b))
}
