// Reading ATA PASS-THROUGH.

ghost use Rattle.std.specs.Prelude.{◌≡◌, IfOk};
ghost use Rattle.satl_regs.specs.Commands.{command_in};
ghost use Rattle.satl_pass.specs.Reading.{CanGoToDrive, has_other_direction, has_other_length, is_queued, pass_says};

use crate::fields::{command_place, pass_of, t_length};
use crate::pass::Pass;
use crate::transfers::{goes_by, is_other, is_protocol, is_writing, own_blocks};
use satl_base::LONGEST_DATA;
use satl_cdb::Illegal;
use satl_regs::{AtaCommand, command_of, queued_of};

fn is_queued(pass: &Pass) -> bool
    ensures { result ≡ is_queued pass.now }
{
    queued_of(&pass.regs).is_some()
}

fn has_other_length(command: &AtaCommand, pass: &Pass) -> bool
    ensures { result ≡ has_other_length command.now pass.now }
{
    !is_other(command) && u64::from(pass.length) != 512 * u64::from(own_blocks(command))
}

fn has_other_direction(command: &AtaCommand, pass: &Pass) -> bool
    ensures { result ≡ has_other_direction command.now pass.now }
{
    !is_other(command) && pass.length != 0 && pass.out != is_writing(command)
}

/// What an ATA PASS-THROUGH command of 16 bytes, or else of 12, asks for (SAT-3 12.2).
///
/// `Err` is INVALID FIELD IN CDB with a pointer, at the first of these (profile): byte 1, a protocol that is not listed; byte
/// 2, T_LENGTH 3 or more than 2,097,152 bytes; the byte of COMMAND, a queued command; and for a command of the profile byte
/// 1, a protocol that does not carry it, then byte 2, a length that is not the command's, or data that go the other way.
#[tactic(auto, unfolding(crate::specs::Reading::pass_says))]
pub fn read_pass(cdb: &[u8; 16]) -> Result<Pass, Illegal>
    ensures says { result ≡ pass_says cdb.now }
    ensures can_run { IfOk result (λ pass. CanGoToDrive pass) }
{
    let pass = pass_of(cdb);
    if !is_protocol(pass.protocol) {
        return Err(Illegal::invalid_field(1));
    }
    if t_length(cdb) == 3 || pass.length > LONGEST_DATA {
        return Err(Illegal::invalid_field(2));
    }
    if is_queued(&pass) {
        return Err(Illegal::invalid_field(command_place(cdb)));
    }
    let command = command_of(&pass.regs);
    if !goes_by(&command, pass.protocol) {
        return Err(Illegal::invalid_field(1));
    }
    if has_other_length(&command, &pass) || has_other_direction(&command, &pass) {
        return Err(Illegal::invalid_field(2));
    }
    Ok(pass)
}

/// The ATA command that is run (ACS-3 section 7).
pub fn plan(pass: &Pass) -> AtaCommand
    ensures { result ≡ command_in pass.now.regs }
{
    command_of(&pass.regs)
}
