// The bytes of replies.
ghost use Rattle.std.specs.Prelude.{◌≡◌, ◌<◌, ◌^◌, ◌++◌, [], List, ℕ, true, false, None};
ghost use Rattle.satl_base.specs.declared.reply.Scsi.TheVariants.{CheckCondition};
ghost use Rattle.satl_sense.specs.Fixed.{fixed_form};
ghost use Rattle.satl_frame.specs.Output.{reply_bytes};
ghost use Rattle.satl_direct.specs.Arrival.{reply_to};
ghost use Rattle.satl_audit.specs.Finishing.{head_bytes};

use crate::cursor::Cursor;
use satl_base::{Nexus, Request, Scsi, SenseBytes, Tag};
use satl_frame::{HEAD_SIZE, REPLY_KIND, REPLY_SIZE};
use satl_sense::{Sense, sense_bytes};

/// How many bytes a reply of version 1 has before its sense: kind 1, length of the payload 4, nexus 1, status 1, tag 4, length
/// of the sense 1 (profile).
pub const REPLY_HEAD: usize = HEAD_SIZE + REPLY_SIZE as usize;

/// The name of a task (SAM-5 4.7, I_T_L_Q nexus).
#[derive(Clone, Copy, Debug, PartialEq, Eq)]
pub struct Name {
    /// The nexus that asked.
    pub nexus: Nexus,
    /// The tag that it gave.
    pub tag: Tag,
}

/// A reply of version 1 up to its sense: with so many bytes of sense and so many of data behind it.
pub fn head(name: Name, status: Scsi, sense: u8, len: u64) -> [u8; REPLY_HEAD]
    requires { len < 2 ^ 63 }
    ensures { result ≡ head_bytes name.nexus name.tag.0 status sense len }
{
    let [_, _, _, _, a, b, c, d] = (REPLY_SIZE as u64 + u64::from(sense) + len).to_be_bytes();
    let [e, f, g, h] = name.tag.0.to_be_bytes();
    [
        REPLY_KIND,
        a,
        b,
        c,
        d,
        name.nexus.number(),
        status.code(),
        e,
        f,
        g,
        h,
        sense,
    ]
}

/// Whether an answer to a request without data comes next in the output; then it is passed.
fn pass_answer(output: &mut Cursor<'_>, request: &Request, status: Scsi, sense: &SenseBytes) -> bool
    requires { request.now.expected ≡ None }
    ensures passed { result ≡ true → output.old ≡ reply_bytes (reply_to request.now status sense.now.items) ++ output.new }
    ensures other { result ≡ false → (rest : List ℕ)
        → output.old ≡ reply_bytes (reply_to request.now status sense.now.items) ++ rest → ⊥ }
{
    let name = Name {
        nexus: request.nexus,
        tag: request.tag,
    };
    let head = head(name, status, sense.len() as u8, 0);
    output.pass(&head) && output.pass(sense.as_slice())
}

/// Whether CHECK CONDITION with this sense comes next in the output; then it is passed.
pub fn pass_check(output: &mut Cursor<'_>, request: &Request, sense: &Sense) -> bool
    requires { request.now.expected ≡ None }
    ensures passed { result ≡ true → output.old ≡ reply_bytes (reply_to request.now CheckCondition (fixed_form sense.now))
        ++ output.new }
    ensures other { result ≡ false → (rest : List ℕ)
        → output.old ≡ reply_bytes (reply_to request.now CheckCondition (fixed_form sense.now)) ++ rest → ⊥ }
{
    let sense = sense_bytes(sense, false);
    pass_answer(output, request, Scsi::CheckCondition, &sense)
}

/// Whether a status without sense comes next in the output; then it is passed.
pub fn pass_status(output: &mut Cursor<'_>, request: &Request, status: Scsi) -> bool
    requires { request.now.expected ≡ None }
    ensures passed { result ≡ true → output.old ≡ reply_bytes (reply_to request.now status []) ++ output.new }
    ensures other { result ≡ false → (rest : List ℕ) → output.old ≡ reply_bytes (reply_to request.now status []) ++ rest → ⊥ }
{
    let none = SenseBytes::new();
    pass_answer(output, request, status, &none)
}
