// Generated scripts whose link is lost at each call of the drive, one after the other.
ghost use Rattle.std.specs.Prelude.{◌≡◌, ◌*◌, IfOk, vec_len};

use crate::frames::{END, ENDED, FLUSH, TURN, Transfer, command, input, read, request, unmap};
use crate::replaying::{pieces, replay, run_until_lost};
use satl_top::Status;
use std::alloc::{AllocError, Global};
use std::process::Abort;
use std::test::Fail;

/// How many steps a script has; their tags count from 0.
const STEPS: u8 = 12;

/// The tags of the two requests that follow the steps.
const TELLS_POWER: u8 = STEPS;

const READS_ALL: u8 = STEPS + 1;

/// How many sectors a script goes about, from address 0 on.
const SECTORS: u8 = 8;

/// Turns behind which all tasks of a script have ended.
const LAST_TURNS: [u8; 7] = [0x03, 0, 0, 0, 2, 0, 255];

/// A loss of power, which brings a lost link back.
const POWER: [u8; 6] = [0x04, 0, 0, 0, 1, 5];

/// Statuses (SAM-5 5.3.1).
const GOOD: u8 = 0x00;

const CHECK_CONDITION: u8 = 0x02;

#[derive(Clone, Copy, PartialEq, Eq)]
enum Action {
    Read,
    Write,
    Flush,
    Verify,
    WriteSame,
    Unmap,
    Turn,
}

/// A step of a script, with its tag and the blocks that it goes over.
#[derive(Clone, Copy)]
struct Step {
    tag: u8,
    action: Action,
    lba: u8,
    count: u8,
}

impl Step {
    /// The byte that the blocks of a write are full of.
    fn fill(&self) -> u8 {
        self.tag.wrapping_add(1)
    }

    fn is_request(&self) -> bool {
        self.action != Action::Turn
    }

    fn is_write(&self) -> bool {
        self.action == Action::Write || self.action == Action::WriteSame
    }

    fn is_over(&self, lba: u8) -> bool {
        self.lba <= lba && lba - self.lba < self.count
    }

    /// Its blocks, by an operation code.
    fn transfer(&self, code: u8) -> Transfer {
        Transfer {
            code,
            tag: self.tag,
            lba: u16::from(self.lba),
            count: u16::from(self.count),
        }
    }
}

/// The next of a row of numbers that a seed begins.
fn next_number(number: u32) -> u32 {
    number.wrapping_mul(1_664_525).wrapping_add(1_013_904_223)
}

fn action_of(number: u8) -> Action {
    match number % 9 {
        0 | 1 => Action::Read,
        2 | 3 => Action::Write,
        4 => Action::Flush,
        5 => Action::Verify,
        6 => Action::WriteSame,
        7 => Action::Unmap,
        _ => Action::Turn,
    }
}

/// The step that a number stands for: over one to four of the sectors.
fn step_of(tag: u8, number: u32) -> Step {
    let [action, lba, count, _] = number.to_be_bytes();
    Step {
        tag,
        action: action_of(action),
        lba: lba % 5,
        count: 1 + count % 4,
    }
}

/// So many blocks that are full of a byte.
fn blocks(alloc: Global, fill: u8, count: u8) -> Result<Vec<u8>, AllocError>
    ensures { IfOk result (λ bytes. vec_len bytes ≡ 512 * count) }
{
    vec![in alloc; fill; 512 * usize::from(count)]
}

/// Appends the frame of a step.
fn add_step(frames: &mut Vec<u8>, alloc: Global, step: &Step) -> Result<(), AllocError> {
    match step.action {
        Action::Read => request(frames, step.transfer(0x28), &[]),
        Action::Write => {
            let data = blocks(alloc, step.fill(), step.count)?;
            request(frames, step.transfer(0x2A), &data)
        }
        Action::Flush => command(frames, step.tag, FLUSH),
        Action::Verify => request(frames, step.transfer(0x2F), &[]),
        Action::WriteSame => request(frames, step.transfer(0x41), &[step.fill(); 512]),
        Action::Unmap => unmap(frames, step.tag, step.lba, step.count),
        Action::Turn => frames.extend_from_slice(&TURN),
    }
}

/// The steps by a seed.
fn steps_by(alloc: Global, seed: u32) -> Result<Vec<Step>, AllocError> {
    let mut number = next_number(seed);
    let mut steps = Vec::new(alloc);
    for tag in 0..STEPS {
        number = next_number(number);
        steps.push(step_of(tag, number))?;
    }
    Ok(steps)
}

/// A script: the bytes of ORDER by a seed, and the steps; then all tasks end, and behind a loss of power TEST UNIT READY takes
/// the unit attention, and all sectors are read.
fn script(alloc: Global, seed: u32, steps: &[Step]) -> Result<Vec<u8>, AllocError> {
    let mut frames = input(alloc)?;
    frames.extend_from_slice(&[0x04, 0, 0, 0, 5, 4])?;
    frames.extend_from_slice(&next_number(seed).to_be_bytes())?;
    for step in steps {
        add_step(&mut frames, alloc, step)?;
    }
    frames.extend_from_slice(&LAST_TURNS)?;
    frames.extend_from_slice(&POWER)?;
    command(&mut frames, TELLS_POWER, [0; 16])?;
    request(&mut frames, read(READS_ALL, 0, u16::from(SECTORS)), &[])?;
    frames.extend_from_slice(&END)?;
    Ok(frames)
}

/// A REPLY: its tag, its status, its sense data and its data-in.
#[derive(Clone, Copy)]
struct Answer<'a> {
    tag: u8,
    status: u8,
    sense: &'a [u8],
    data_in: &'a [u8],
}

impl Answer<'_> {
    /// Whether it is CHECK CONDITION with this sense key, additional sense code and qualifier, in the fixed form (SPC-4 4.5.3).
    fn says(&self, key: u8, code: u8, qualifier: u8) -> bool {
        self.status == CHECK_CONDITION
            && self.sense.get(2).copied() == Some(key)
            && self.sense.get(12).copied() == Some(code)
            && self.sense.get(13).copied() == Some(qualifier)
    }
}

/// The kind and the body of the first frame of an output, and what follows it. None where no whole frame stands there.
fn split_frame(output: &[u8]) -> Option<(u8, &[u8], &[u8])> {
    let [kind, a, b, c, d, rest @ ..] = output else {
        return None;
    };
    let size = u32::from_be_bytes([*a, *b, *c, *d]) as usize;
    let (body, rest) = rest.split_at_checked(size)?;
    Some((*kind, body, rest))
}

/// A reply by the body of its frame. None where it is too short for its sense data.
fn read_answer(body: &[u8]) -> Option<Answer<'_>> {
    let [_, status, _, _, _, tag, size, rest @ ..] = body else {
        return None;
    };
    let (sense, data_in) = rest.split_at_checked(usize::from(*size))?;
    Some(Answer {
        tag: *tag,
        status: *status,
        sense,
        data_in,
    })
}

/// The replies of an output without its magic.
fn answers_in(alloc: Global, output: &[u8]) -> Result<Vec<Answer<'_>>, AllocError> {
    let mut answers = Vec::new(alloc);
    let mut left = output;
    for _ in 0..32 {
        let Some((kind, body, rest)) = split_frame(left) else {
            break;
        };
        if kind == 0x81
            && let Some(answer) = read_answer(body)
        {
            answers.push(answer)?;
        }
        left = rest;
    }
    Ok(answers)
}

/// Whether a block at an address may be full of a byte: 0, or what a step wrote there.
fn may_hold(steps: &[Step], lba: u8, fill: u8) -> bool {
    fill == 0
        || steps.iter().any(|step| step.is_write() && step.is_over(lba) && step.fill() == fill)
}

/// Whether a block is full of one byte that it may hold.
fn is_written(block: &[u8], lba: u8, steps: &[Step]) -> bool {
    match block.first() {
        None => false,
        Some(fill) => may_hold(steps, lba, *fill) && block.iter().all(|byte| byte == fill),
    }
}

/// Whether data-in are the blocks of all sectors, each as a step may have left it.
fn are_written(data_in: &[u8], steps: &[Step]) -> bool {
    let mut left = data_in;
    for lba in 0..SECTORS {
        let Some((block, rest)) = left.split_at_checked(512) else {
            return false;
        };
        if !is_written(block, lba, steps) {
            return false;
        }
        left = rest;
    }
    left.is_empty()
}

/// Whether a reply is one that its request may have: a step ends with GOOD, or with 4/08/00 where the link was lost; behind the
/// loss of power the unit attention is told with 6/29/01, and the sectors are read.
fn is_apt(answer: &Answer<'_>, steps: &[Step]) -> bool {
    match (answer.tag, answer.status) {
        (TELLS_POWER, _) => answer.says(6, 0x29, 1),
        (READS_ALL, status) => status == GOOD && are_written(answer.data_in, steps),
        (_, GOOD) => true,
        _ => answer.says(4, 0x08, 0),
    }
}

/// The tags of these replies, in order.
fn tags_of(alloc: Global, answers: &[Answer<'_>]) -> Result<Vec<u8>, AllocError> {
    let mut tags = Vec::new(alloc);
    for answer in answers {
        tags.push(answer.tag)?;
    }
    tags.sort()?;
    Ok(tags)
}

/// The tags of the requests of a script, in order.
fn requests_of(alloc: Global, steps: &[Step]) -> Result<Vec<u8>, AllocError> {
    let mut tags = Vec::new(alloc);
    for step in steps {
        if step.is_request() {
            tags.push(step.tag)?;
        }
    }
    tags.push(TELLS_POWER)?;
    tags.push(READS_ALL)?;
    Ok(tags)
}

/// Each request of a script has one reply in an output, and one that it may have.
fn expect_answers(
    rt: &impl Abort,
    alloc: Global,
    output: &[u8],
    steps: &[Step],
) -> Result<(), Fail> {
    let answers = answers_in(alloc, output)?;
    assert_eq!(rt; tags_of(alloc, &answers)?, requests_of(alloc, steps)?);
    for answer in &answers {
        assert!(rt; is_apt(answer, steps), "tag {}", answer.tag);
    }
    Ok(())
}

/// The link of a script is lost at each call behind the opening, up to the last one, behind which the output is that without a
/// loss.
fn expect_losses(rt: &impl Abort, alloc: Global, seed: u32) -> Result<(), Fail> {
    let steps = steps_by(alloc, seed)?;
    let frames = script(alloc, seed, &steps)?;
    let (_, undisturbed) = replay(alloc, frames.to_vec(alloc)?, pieces(65536))?;
    for earlier in 1..100u32 {
        let (ended, written) = run_until_lost(alloc, &["replay"], frames.to_vec(alloc)?, earlier)?;
        assert_eq!(rt; ended, Status::Done, "script {seed} after {earlier} calls");
        assert!(rt;
            written.ends_with(&ENDED),
            "script {seed} after {earlier} calls"
        );
        expect_answers(rt, alloc, written.get(8..).unwrap_or(&[]), &steps)?;
        if written == undisturbed {
            assert!(rt; earlier > 4, "script {seed} has {earlier} calls");
            return Ok(());
        }
    }
    panic!(rt; "script {seed} has no end")
}

// Of 50 scripts, each request is answered once, by its end or by the lost link, and behind it each sector has 0 or what was
// written there. Five tests share them, for the time that one may take.

#[test]
fn scripts_0_to_9_lose_the_link_at_each_call(rt: HostRuntime) -> Result<(), Fail> {
    for seed in 0..10 {
        expect_losses(&rt, rt.alloc(), seed)?;
    }
    Ok(())
}

#[test]
fn scripts_10_to_19_lose_the_link_at_each_call(rt: HostRuntime) -> Result<(), Fail> {
    for seed in 10..20 {
        expect_losses(&rt, rt.alloc(), seed)?;
    }
    Ok(())
}

#[test]
fn scripts_20_to_29_lose_the_link_at_each_call(rt: HostRuntime) -> Result<(), Fail> {
    for seed in 20..30 {
        expect_losses(&rt, rt.alloc(), seed)?;
    }
    Ok(())
}

#[test]
fn scripts_30_to_39_lose_the_link_at_each_call(rt: HostRuntime) -> Result<(), Fail> {
    for seed in 30..40 {
        expect_losses(&rt, rt.alloc(), seed)?;
    }
    Ok(())
}

#[test]
fn scripts_40_to_49_lose_the_link_at_each_call(rt: HostRuntime) -> Result<(), Fail> {
    for seed in 40..50 {
        expect_losses(&rt, rt.alloc(), seed)?;
    }
    Ok(())
}
