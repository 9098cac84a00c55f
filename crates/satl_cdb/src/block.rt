// Commands of block devices (SBC-3).

ghost use Rattle.std.specs.Prelude.{◌≡◌, Ok};
ghost use Rattle.satl_cdb.specs.Rows.{format_says, unless_broken};
ghost use Rattle.satl_cdb.specs.BlockCommands.{layout_of, read, read_6, write, write_6, transfer_rules, verify, synchronize_cache, write_same, unmap, start_stop, read_capacity_16};

use crate::codes::READ_CAPACITY_16;
use crate::command::{Command, Form, Illegal};
use crate::fields::{count_of, count_place, flag, lba_of, u16_at, u32_at};
use satl_base::{MOST_COVERED, MOST_MOVED};

/// READ (6) (SBC-3).
pub fn read_6_of(cdb: &[u8; 16]) -> Command
    ensures { format_says read_6 cdb.now ≡ Ok result }
{
    Command::Read {
        form: Form::Six,
        lba: lba_of(cdb, Form::Six),
        count: count_of(cdb, Form::Six),
        fua: false,
    }
}

/// WRITE (6) (SBC-3).
pub fn write_6_of(cdb: &[u8; 16]) -> Command
    ensures { format_says write_6 cdb.now ≡ Ok result }
{
    Command::Write {
        form: Form::Six,
        lba: lba_of(cdb, Form::Six),
        count: count_of(cdb, Form::Six),
        fua: false,
    }
}

// What READ and WRITE have in common: RDPROTECT or WRPROTECT, and the most blocks.
fn check_transfer(cdb: &[u8; 16], form: Form) -> Result<(), Illegal>
    ensures { result ≡ unless_broken (transfer_rules (layout_of form)) cdb.now tt }
{
    let protect = cdb[1] >> 5;
    if protect != 0 {
        return Err(Illegal::invalid_field(1));
    }
    if count_of(cdb, form) > MOST_MOVED {
        return Err(Illegal::invalid_field(count_place(form)));
    }
    Ok(())
}

/// READ (10), (12) or (16), or its refusal (SBC-3).
pub fn read_of(cdb: &[u8; 16], form: Form) -> Result<Command, Illegal>
    ensures { result ≡ format_says (read (layout_of form)) cdb.now }
{
    check_transfer(cdb, form)?;
    Ok(Command::Read {
        form,
        lba: lba_of(cdb, form),
        count: count_of(cdb, form),
        fua: flag(cdb, 1, 3),
    })
}

/// WRITE (10), (12) or (16), or its refusal (SBC-3).
pub fn write_of(cdb: &[u8; 16], form: Form) -> Result<Command, Illegal>
    ensures { result ≡ format_says (write (layout_of form)) cdb.now }
{
    check_transfer(cdb, form)?;
    Ok(Command::Write {
        form,
        lba: lba_of(cdb, form),
        count: count_of(cdb, form),
        fua: flag(cdb, 1, 3),
    })
}

/// VERIFY (10), (12) or (16), or its refusal (SBC-3).
pub fn verify_of(cdb: &[u8; 16], form: Form) -> Result<Command, Illegal>
    ensures { result ≡ format_says (verify (layout_of form)) cdb.now }
{
    let protect = cdb[1] >> 5;
    let byte_check = cdb[1] >> 1 & 3;
    if protect != 0 || byte_check > 1 {
        return Err(Illegal::invalid_field(1));
    }
    let compare = byte_check == 1;
    let limit = if compare { MOST_MOVED } else { MOST_COVERED };
    let count = count_of(cdb, form);
    if count > limit {
        return Err(Illegal::invalid_field(count_place(form)));
    }
    Ok(Command::Verify {
        form,
        lba: lba_of(cdb, form),
        count,
        compare,
    })
}

/// SYNCHRONIZE CACHE (10) or (16) (SBC-3).
pub fn synchronize_cache_of(cdb: &[u8; 16], form: Form) -> Command
    ensures { format_says (synchronize_cache (layout_of form)) cdb.now ≡ Ok result }
{
    Command::Flush {
        form,
        lba: lba_of(cdb, form),
        count: count_of(cdb, form),
    }
}

/// WRITE SAME (10) or (16), on a drive with or without trim, or its refusal (SBC-3).
pub fn write_same_of(cdb: &[u8; 16], trim: bool, form: Form) -> Result<Command, Illegal>
    ensures { result ≡ format_says (write_same trim (layout_of form)) cdb.now }
{
    let protect = cdb[1] >> 5;
    let anchor = flag(cdb, 1, 4);
    let unmap = flag(cdb, 1, 3);
    let reserved = cdb[1] & 7;
    if protect != 0 || anchor || reserved != 0 || unmap && !trim {
        return Err(Illegal::invalid_field(1));
    }
    let count = count_of(cdb, form);
    if count == 0 || count > MOST_COVERED {
        return Err(Illegal::invalid_field(count_place(form)));
    }
    Ok(Command::WriteSame {
        form,
        lba: lba_of(cdb, form),
        count,
        unmap,
    })
}

/// UNMAP, on a drive with or without trim, or its refusal (SBC-3).
pub fn unmap_of(cdb: &[u8; 16], trim: bool) -> Result<Command, Illegal>
    ensures { result ≡ format_says (unmap trim) cdb.now }
{
    if !trim {
        return Err(Illegal::invalid_operation_code());
    }
    let anchor = flag(cdb, 1, 0);
    if anchor {
        return Err(Illegal::invalid_field(1));
    }
    Ok(Command::Unmap {
        length: u16_at(cdb, 7),
    })
}

/// START STOP UNIT, or its refusal (SBC-3).
pub fn start_stop_of(cdb: &[u8; 16]) -> Result<Command, Illegal>
    ensures { result ≡ format_says start_stop cdb.now }
{
    let power_condition = cdb[4] >> 4;
    let loej = flag(cdb, 4, 1);
    if power_condition != 0 || loej {
        return Err(Illegal::invalid_field(4));
    }
    Ok(Command::StartStop {
        start: flag(cdb, 4, 0),
        no_flush: flag(cdb, 4, 2),
    })
}

/// READ CAPACITY (16), or its refusal (SBC-3).
pub fn read_capacity_16_of(cdb: &[u8; 16]) -> Result<Command, Illegal>
    ensures { result ≡ format_says read_capacity_16 cdb.now }
{
    let service_action = cdb[1] & 0x1F;
    if service_action != READ_CAPACITY_16 {
        return Err(Illegal::invalid_field(1));
    }
    Ok(Command::ReadCapacity16 {
        alloc: u32_at(cdb, 10),
    })
}
