// The C entries: the library's six, each under its own name, with the same promises. `include/sagepliers.h` documents them.
#![tactic(auto)]

ghost use Rattle.sagepliers.specs.Entry.{CheckNumber, PushNumber, SolveNumber, KernelNumber, ComposeNumber, NameNumber};

#[unsafe(no_mangle)]
pub extern "C" fn sagepliers_check(bytes: &[u8]) -> u32
    ensures { CheckNumber bytes.now result }
{
    sagepliers::sagepliers_check(bytes)
}

#[unsafe(no_mangle)]
pub extern "C" fn sagepliers_push(bytes: &[u8], point: u64) -> u64
    ensures { PushNumber bytes.now point result }
{
    sagepliers::sagepliers_push(bytes, point)
}

#[unsafe(no_mangle)]
pub extern "C" fn sagepliers_solve(sheet: &[u32], answer: &mut [u32]) -> u64
    ensures { SolveNumber sheet.now answer.old answer.new result }
{
    sagepliers::sagepliers_solve(sheet, answer)
}

#[unsafe(no_mangle)]
pub extern "C" fn sagepliers_kernel(sheet: &[u32], answer: &mut [u32]) -> u64
    ensures { KernelNumber sheet.now answer.old answer.new result }
{
    sagepliers::sagepliers_kernel(sheet, answer)
}

#[unsafe(no_mangle)]
pub extern "C" fn sagepliers_compose(first: &[u32], second: &[u32], answer: &mut [u32]) -> u64
    ensures { ComposeNumber first.now second.now answer.old answer.new result }
{
    sagepliers::sagepliers_compose(first, second, answer)
}

#[unsafe(no_mangle)]
pub extern "C" fn sagepliers_name(p: u32, a: u32, b: u32) -> u64
    ensures { NameNumber p a b result }
{
    sagepliers::sagepliers_name(p, a, b)
}
