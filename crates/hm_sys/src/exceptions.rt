//! Exceptions that wait, and which of them is the most urgent.

ghost use Rattle.std.specs.Prelude.{◌≡◌, ℕ, ◌+◌, ◌-◌, ◌*◌, ◌/◌, ◌%◌, ◌^◌, ◌<◌, ◌≤◌, false, Some, None, IfSome, if◌then◌else◌};
ghost use Rattle.hm_sys.specs.Exceptions.{IsException, IsPicked, accepted, is_eligible, is_set, is_waiting, picked, priority_of};
ghost use Rattle.hm_sys.specs.Best.{IsBest, end_of};
ghost use Rattle.hm_sys.specs.Ticks.{arrived, with_pending};

use hm_mem::Dev;

/// The exception number of SysTick (DDI0553, "Exception numbers and exception priority numbers").
const SYSTICK: u16 = 15;

/// The exception number of interrupt 0.
const FIRST_EXTERNAL: u16 = 16;

/// The first number that no exception has.
const EXCEPTIONS_END: u16 = 256;

/// Bit `n` of words, 32 in each.
fn is_set(n: u16, words: &[u32; 8]) -> bool
    requires { n < 240 }
    ensures value { result ≡ is_set n words.now }
{
    (words[(n / 32) as usize] >> (n % 32)) % 2 == 1
}

/// Interrupt `n`, which is below 240, becomes pending.
pub fn arrive(d: &mut Dev, n: u8)
    requires { n < 240 }
    ensures value { d.new ≡ with_pending (n / 32) (2 ^ (n % 32)) d.old }
{
    d.pending[(n / 32) as usize] |= 1 << (n % 32);
}

/// The interrupts whose bits are set in `irq` become pending: bit n % 32 of word n / 32 stands for interrupt n.
pub fn arrive_all(d: &mut Dev, irq: &[u32; 8])
    ensures value { d.new ≡ arrived irq.now d.old }
{
    let old = d.pending;
    d.pending = [
        old[0] | irq[0],
        old[1] | irq[1],
        old[2] | irq[2],
        old[3] | irq[3],
        old[4] | irq[4],
        old[5] | irq[5],
        old[6] | irq[6],
        old[7] | irq[7],
    ];
}

/// The priority number of an exception, 15 to 255: the byte of SHPR3 or of NVIC_IPR that stands for it. A lower number is more urgent.
pub fn priority(d: &Dev, e: u16) -> u16
    requires exception { IsException e }
    ensures value { result ≡ priority_of d.now e }
{
    if e == SYSTICK {
        d.tick_prio as u16
    } else {
        d.prio[(e - FIRST_EXTERNAL) as usize] as u16
    }
}

/// Whether an exception, 15 to 255, waits to enter.
fn is_waiting(d: &Dev, e: u16) -> bool
    requires exception { IsException e }
    ensures value { result ≡ is_waiting d.now e }
{
    if e == SYSTICK {
        d.tick_pending
    } else {
        let n = e - FIRST_EXTERNAL;
        is_set(n, &d.pending) && is_set(n, &d.enabled)
    }
}

/// Whether an exception, 15 to 255, is eligible where what runs has the priority number `current`.
fn is_eligible(d: &Dev, current: u16, e: u16) -> bool
    requires exception { IsException e }
    ensures value { result ≡ is_eligible d.now current e }
{
    is_waiting(d, e) && priority(d, e) < current
}

/// The more urgent of the most urgent so far and `e`, which has a higher exception number.
fn more_urgent(d: &Dev, current: u16, best: Option<u16>, e: u16) -> Option<u16>
    requires exception { IsException e }
    requires so_far { IsBest d.now current e best }
    ensures next { IsBest d.now current (e + 1) result }
{
    match best {
        None => {
            if is_eligible(d, current, e) {
                Some(e)
            } else {
                None
            }
        }
        Some(f) => {
            if is_eligible(d, priority(d, f), e) {
                Some(e)
            } else {
                Some(f)
            }
        }
    }
}

/// The first number past the exceptions of so many words of interrupts, of which the last has 16.
fn end_of(words: u16) -> u16
    requires { words ≤ 8 }
    ensures value { result ≡ end_of words }
{
    EXCEPTIONS_END.min(FIRST_EXTERNAL + 32 * words)
}

/// The more urgent of the most urgent so far and the interrupts of word `k`. Where none of these is both pending and enabled they are not looked at.
fn most_urgent_of_word(d: &Dev, current: u16, best: Option<u16>, k: u16) -> Option<u16>
    requires word { k < 8 }
    requires so_far { IsBest d.now current (end_of k) best }
    ensures next { IsBest d.now current (end_of (k + 1)) result }
{
    if d.pending[k as usize] & d.enabled[k as usize] == 0 {
        return best;
    }
    let mut best = best;
    for e in end_of(k)..end_of(k + 1) {
        best = more_urgent(d, current, best, e);
    }
    best
}

/// The exception that enters where what runs has the priority number `current`: of those that wait with a lower number the one with the
/// lowest, and of those with one number the one with the lowest exception number (DDI0553, "Exception priority boosting").
/// None exactly where there is none.
pub fn candidate(d: &Dev, current: u16) -> Option<u16>
    ensures value { result ≡ picked d.now current }
    ensures found { IfSome result (λ e. IsPicked d.now current e) }
    ensures none { result ≡ None → (e : ℕ) → is_eligible d.now current e ≡ false }
    ensures unique { (e : ℕ) → IsPicked d.now current e → result ≡ Some e }
    ensures range { IfSome result (λ e. IsException e) }
{
    let mut best = more_urgent(d, current, None, SYSTICK);
    for k in 0_u16..8 {
        best = most_urgent_of_word(d, current, best, k);
    }
    best
}

/// Exception `e`, 15 to 255, has entered, so it is no longer pending.
pub fn accept(d: &mut Dev, e: u16)
    requires exception { IsException e }
    ensures value { d.new ≡ accepted e d.old }
{
    if e == SYSTICK {
        d.tick_pending = false;
    } else {
        let n = e - FIRST_EXTERNAL;
        d.pending[(n / 32) as usize] &= !(1 << (n % 32));
    }
}
