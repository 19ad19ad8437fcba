// A list of links and asks, made one after the other on the same lent memory: the program that demand 3 speaks of.
#![tactic(auto)]

ghost use Rattle.std.specs.Prelude.{◌≡◌, ◌+◌, ◌<◌, ◌^◌, [], ◌∷◌};
ghost use Rattle.calls.specs.Calls.{numbered, start, numbers_left};
ghost use Rattle.replay.specs.Replay.{call_of, calls_of, Called, answer_words, over_at, leaving, replay_def};

use area::Answer;
use refusal::Refusal;

// Makes the call that five words tell.
fn one_call(
    set: &mut [u32],
    abi: &[u32],
    numbers: &mut [u32],
    area: &mut [u32],
    missing: &mut [u32],
    call: &[u32],
    stubs: &[u32],
) -> Result<Answer, Refusal>
    ensures called { Called (numbered numbers.old) abi.now (start set.old area.old missing.old) (call_of call.now stubs.now) result
        set.new area.new missing.new }
    ensures numbers_are { numbers.new ≡ numbers_left numbers.old abi.now (start set.old area.old missing.old) (call_of call.now stubs.now) }
{
    let class = words::get_or(call, 1, 0);
    let interface = words::get_or(call, 2, 0);
    let first = words::get_or(call, 3, 0) as usize;
    let count = words::get_or(call, 4, 0) as usize;
    let lent = words::part(stubs, first, count);
    if words::get_or(call, 0, 0) == 0 {
        return link::link(set, abi, numbers, class, area, lent, missing);
    }
    ask::interface_dispatch_table(set, abi, numbers, class, interface, area, lent)
}

// A call's three answer words: refusal, first, second.
fn answer_words(answer: Result<Answer, Refusal>) -> (u32, u32, u32)
    ensures { result.0 ∷ result.1 ∷ result.2 ∷ [] ≡ answer_words answer }
{
    match answer {
        Ok(a) => (0, a.first, a.second),
        Err(refusal) => (u32::from(refusal), 0, 0),
    }
}

// Stores them from a place on, as far as there is room.
#[tactic(auto, using(crate::proofs::ReplayLaws::stored))]
fn put_answer(answers: &mut [u32], at: usize, answer: Result<Answer, Refusal>)
    requires { at + 2 < 2 ^ 64 }
    ensures { answers.new ≡ over_at at (answer_words answer) answers.old }
{
    let (row, first, second) = answer_words(answer);
    words::put(answers, at, row);
    words::put(answers, at + 1, first);
    words::put(answers, at + 2, second);
}

// Makes the calls in turn, each on the set, the list of numbers, the area and the counts as the last one left them, accepted or refused. Five words
// are a call: kind (0 a link, another an ask), class, interface, first stub and number of stubs, of those lent; words after the last whole five are
// no call. The answers are three words a call (refusal, first, second), as far as there is room.
pub fn replay(
    set: &mut [u32],
    abi: &[u32],
    numbers: &mut [u32],
    area: &mut [u32],
    missing: &mut [u32],
    calls: &[u32],
    stubs: &[u32],
    answers: &mut [u32],
)
    ensures { leaving (start set.new area.new missing.new) numbers.new answers.new
        ≡ replay_def numbers.old abi.now (start set.old area.old missing.old) (calls_of calls.now stubs.now) answers.old }
{
    for (i, call) in calls.chunks_exact(5).enumerate() {
        let answer = one_call(set, abi, numbers, area, missing, call, stubs);
        put_answer(answers, 3 * i, answer);
    }
}
