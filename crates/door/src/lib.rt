// The door for C and Rust: a few functions on numbers and byte slices, each from a table image and, all but one, a state image. They
// read the images once, do what the crates below do on records that fit, and write a state's image or the step list into lent room; the
// header vapourtrack.h tells a caller the rest. It uses words, rules, table_images, state_images, steps and runs.
#![tactic(auto)]

ghost use Rattle.std.specs.Prelude.{◌≡◌, ◌≤◌, true, IfOk};
ghost use Rattle.words.specs.Refusal.{verdict_number};
ghost use Rattle.rules.specs.Limits.{max_heads};
ghost use Rattle.rules.specs.Room.{Wrote, bytes_told};
ghost use Rattle.rules.specs.State.{fresh, state_fits};
ghost use Rattle.rules.specs.Table.{table_fits};
ghost use Rattle.table_images.specs.TableImage.{read_table_refusal, read_table};
ghost use Rattle.state_images.specs.StateImage.{state_image};
ghost use Rattle.runs.specs.Listing.{list_image};
ghost use Rattle.runs.specs.Run.{told};
ghost use Rattle.door.specs.Answers.{answer, state_of, open_refusal, judge_refusal, judged_state, given_outcome, policy_outcome, Handed, Played};

use rules::{Fit, State};
use runs::Ran;
use words::{Refusal, Step, verdict_number};

// 2^56: what is left of sixty-four bits above the refusal number's byte.
const COUNT_PLACES: u64 = 1 << 56;

// The fresh state of a table.
#[unsafe(no_mangle)]
pub extern "C" fn vt_fresh(table: &[u8], room: &mut [u8]) -> u64
    ensures { Handed result (read_table_refusal table.now) (state_image (fresh (read_table table.now))) room.old room.new }
{
    wrote(fresh(table, room))
}

// A proposed step, judged.
#[unsafe(no_mangle)]
pub extern "C" fn vt_judge(table: &[u8], state: &[u8], kind: u8, head: u8, room: &mut [u8]) -> u64
    ensures { Handed result (judge_refusal table.now state.now kind head) (state_image (judged_state table.now state.now kind head)) room.old room.new }
{
    wrote(judge(table, state, kind, head, room))
}

// The steps that are accepted now.
#[unsafe(no_mangle)]
pub extern "C" fn vt_list(table: &[u8], state: &[u8], room: &mut [u8]) -> u64
    ensures { Handed result (open_refusal table.now state.now) (list_image (read_table table.now) (state_of table.now state.now)) room.old room.new }
{
    wrote(list(table, state, room))
}

// A run of given steps.
#[tactic(auto, using(crate::proofs::Laws::given_ran, crate::proofs::Laws::given_few))]
#[unsafe(no_mangle)]
pub extern "C" fn vt_given(table: &[u8], state: &[u8], pairs: &[u8], room: &mut [u8]) -> u64
    ensures { Played result (given_outcome table.now state.now pairs.now) room.old room.new }
{
    match read_both(table, state) {
        Ok(fit) => played(runs::run_given_fit(fit, pairs), room),
        Err(why) => answer(Err(why), 0),
    }
}

// A run by the fixed policy. To share the three lines, either run would be a closure over what the images gave.
#[tactic(auto, using(crate::proofs::Laws::policy_ran, crate::proofs::Laws::policy_few))]
#[unsafe(no_mangle)]
pub extern "C" fn vt_policy(table: &[u8], state: &[u8], count: usize, room: &mut [u8]) -> u64
    ensures { Played result (policy_outcome table.now state.now count) room.old room.new }
{
    match read_both(table, state) {
        Ok(fit) => played(runs::run_policy_fit(fit, count), room),
        Err(why) => answer(Err(why), 0),
    }
}

// What vt_fresh, vt_judge and vt_list write, or why they refuse.
#[tactic(auto, using(crate::proofs::Laws::fresh_few))]
fn fresh(table: &[u8], room: &mut [u8]) -> Result<usize, Refusal>
    ensures { Wrote result (read_table_refusal table.now) (state_image (fresh (read_table table.now))) room.old room.new }
{
    let t = table_images::read(table)?;
    state_images::write_fit(State::fresh_fit(t), room)
}

#[tactic(auto, using(crate::proofs::Laws::judge_number, crate::proofs::Laws::judge_few, crate::proofs::Laws::judge_state))]
fn judge(table: &[u8], state: &[u8], kind: u8, head: u8, room: &mut [u8]) -> Result<usize, Refusal>
    ensures { Wrote result (judge_refusal table.now state.now kind head) (state_image (judged_state table.now state.now kind head)) room.old room.new }
{
    let fit = read_both(table, state)?;
    let next = steps::attempt(fit, Step::read(kind, head))?;
    state_images::write_fit(next, room)
}

fn list(table: &[u8], state: &[u8], room: &mut [u8]) -> Result<usize, Refusal>
    ensures { Wrote result (open_refusal table.now state.now) (list_image (read_table table.now) (state_of table.now state.now)) room.old room.new }
{
    runs::open_steps_fit(read_both(table, state)?, room)
}

// The table and the state of two images, or the refusal of one of them.
#[tactic(auto, using(crate::proofs::Laws::no_table, crate::proofs::Laws::with_table, table_images::proofs::TableRound::read_table_fits, state_images::proofs::StateRound::read_state_fits))]
fn read_both(table: &[u8], state: &[u8]) -> Result<Fit, Refusal>
    ensures number { verdict_number result ≡ open_refusal table.now state.now }
    ensures records { IfOk result (λ fit. (fit.table ≡ read_table table.now) × (fit.state ≡ state_of table.now state.now)) }
{
    let t = table_images::read(table)?;
    let s = state_images::read_fit(t, state)?;
    Ok(Fit { table: t, state: s })
}

// A run's answer: it counts the steps accepted, whatever the number.
fn played(ran: Ran, room: &mut [u8]) -> u64
    requires { ran.state.n ≤ max_heads }
    ensures { Played result (told ran) room.old room.new }
{
    answer(stored(ran, room), ran.accepted)
}

// The state that a run came to, written where nothing stopped it.
fn stored(ran: Ran, room: &mut [u8]) -> Result<usize, Refusal>
    requires { ran.state.n ≤ max_heads }
    ensures { Wrote result (verdict_number ran.verdict) (state_image ran.state) room.old room.new }
{
    ran.verdict?;
    state_images::write_fit(ran.state, room)
}

// A writer's answer: it counts the bytes written.
fn wrote(w: Result<usize, Refusal>) -> u64
    ensures { result ≡ answer (verdict_number w) (bytes_told w) }
{
    answer(w, w.unwrap_or(0))
}

// A refusal number and a count as one number.
#[tactic(auto, unfolding(crate::specs::Answers::answer))]
fn answer(w: Result<usize, Refusal>, count: usize) -> u64
    ensures { result ≡ answer (verdict_number w) count }
{
    verdict_number(w) as u64 + 256 * (count as u64 % COUNT_PLACES)
}
