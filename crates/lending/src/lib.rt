// What a caller lends to a service, filled with other values before the call and looked over after it. With these a program says of each
// call whether every number of the memory is 0, and whether every byte past the printed text is as it was.
#![tactic(auto)]

ghost use Rattle.std.specs.Prelude.{◌≡◌, ◌==◌, length, replicate};
ghost use Rattle.std.specs.List.{list_all};

// What a memory is filled with. Any number but 0 would do.
const NUMBER: u32 = 0xABAB_ABAB;

// What an output is filled with. No printed text has this byte, since UTF-8 has it nowhere. So a byte that was left
// is never taken for one that was written.
const BYTE: u8 = 255;

pub fn fill_memory(memory: &mut [u32])
    ensures { memory.new ≡ replicate (length memory.old) NUMBER }
{
    memory.fill(NUMBER);
}

pub fn fill_output(output: &mut [u8])
    ensures { output.new ≡ replicate (length output.old) BYTE }
{
    output.fill(BYTE);
}

// Whether every number is 0. Neither this nor the next is built into its callers: there the loops take twice the work.
#[inline(never)]
pub fn all_zero(memory: &[u32]) -> bool
    ensures { result ≡ list_all (λ number. number == 0) memory.now }
{
    memory.iter().all(|number| *number == 0)
}

// Whether every byte is what an output was filled with.
#[inline(never)]
pub fn untouched(rest: &[u8]) -> bool
    ensures { result ≡ list_all (λ byte. byte == BYTE) rest.now }
{
    rest.iter().all(|byte| *byte == BYTE)
}
