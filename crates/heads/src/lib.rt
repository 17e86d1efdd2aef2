// The head of a function packed in a number: the codes of its parameter types in order, their count, and the code of its return type.
// A head stays a bare u64 and not a type of its own: stores of names keep plain numbers, and take every one of them.

#![tactic(auto)]

ghost use Rattle.std.specs.Prelude.{◌≡◌, length};
ghost use Rattle.heads.specs.Heads.{bare_head, pushed, head_of, Pushes, Unpacks, parameters_of, return_of, nth};

// A code is below 8.
const CODES: u64 = 8;

// So it takes 3 bits.
const CODE_BITS: u32 = 3;

// The count is below 32.
const COUNTS: u64 = 32;

// The parameters stand above the count and the return type, which take 8 bits.
const LOW_BITS: u32 = 8;

// A head has at most 16 parameters.
const MOST_PARAMETERS: u64 = 16;

// Every head with room for a parameter is below this.
const WITH_ROOM: u64 = 1 << 53;

// The head of a function without parameters.
pub fn bare(returns: u8) -> Option<u64>
    ensures result { result ≡ bare_head returns }
{
    let head = u64::from(returns);
    (head < CODES).then_some(head)
}

// The head with one parameter more, as the last.
pub fn push(head: u64, code: u8) -> Option<u64>
    ensures result { result ≡ pushed head code }
    ensures law { Pushes head code result }
{
    let code = u64::from(code);
    let count = head / CODES % COUNTS;
    if count >= MOST_PARAMETERS || head >= WITH_ROOM || code >= CODES {
        return None;
    }
    let digits = (head >> LOW_BITS) * CODES + code;
    Some((digits * COUNTS + count + 1) * CODES + head % CODES)
}

// The head of a function with these parameters.
pub fn pack(parameters: &[u8], returns: u8) -> Option<u64>
    ensures result { result ≡ head_of parameters.now returns }
    ensures law { Unpacks parameters.now returns result }
{
    let mut head = bare(returns)?;
    for &code in parameters {
        head = push(head, code)?;
    }
    Some(head)
}

// How many parameters a head has.
pub fn count(head: u64) -> usize
    ensures result { result ≡ length (parameters_of head) }
{
    (head / CODES % COUNTS) as usize
}

// The code of a head's return type.
pub fn returns(head: u64) -> u8
    ensures result { result ≡ return_of head }
{
    (head % CODES) as u8
}

// The code of the i-th parameter of a head.
pub fn parameter(head: u64, i: usize) -> Option<u8>
    ensures result { result ≡ nth (parameters_of head) i }
{
    let later = count(head).checked_sub(i)?.checked_sub(1)?;
    let digits = head
        .checked_shr(LOW_BITS + CODE_BITS * later as u32)
        .unwrap_or(0);
    Some((digits % CODES) as u8)
}
