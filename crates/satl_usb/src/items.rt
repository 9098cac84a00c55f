// Items are read, however the reads are cut.
ghost use Rattle.std.specs.Prelude.{◌≡◌, ◌≤◌, false, IfErr, IfOk, IfSome};
ghost use Rattle.satl_base.specs.Stocks.{HasLent};
ghost use Rattle.satl_base.specs.Limits.{input_limit};
ghost use Rattle.satl_frame.specs.Pulls.{given_pages};
ghost use Rattle.satl_usb.specs.Items.{sent_length};
ghost use Rattle.satl_usb.specs.Reading.{HeadAwaits, HeadMissed, HeadRead, ItemAwaits, ItemCauses, ItemMissed, ItemRead, pages_read};

use satl_base::{INPUT_LIMIT, Lender, Pages};
use satl_bot::{CBW_SIZE, Cbw, read_cbw};
use satl_frame::{PullError, fill, pull_data};
use satl_io::{Failed, Source};

/// An item as it was read.
#[derive(Drop)]
pub struct Taken {
    /// What its wrapper says.
    pub command: Cbw,
    /// The data that the host sends, in as many pages of 512 bytes as were free.
    pub body: Pages,
}

/// Why no item was read (profile).
#[derive(Clone, Copy, Debug, PartialEq, Eq)]
pub enum ItemFault {
    /// What stands there is no item.
    Bad,
    /// A read failed.
    Failed,
}

impl From<Failed> for ItemFault {
    ghost use Rattle.std.specs.Prelude.{◌≡◌};
    ghost use Rattle.satl_usb.specs.declared.items.ItemFault.TheVariants as faults;

    ghost from_gives = { λ _ fault. fault ≡ faults.Failed };

    fn from(_: Failed) -> ItemFault {
        ItemFault::Failed
    }
}

/// The number of bytes that the host sends behind a wrapper (USB Mass Storage Class, Bulk-Only Transport 1.0, 5.3).
pub fn sent_length(command: &Cbw) -> u32
    ensures { result ≡ sent_length command.now }
{
    if command.is_in { 0 } else { command.length }
}

/// Takes the wrapper of a command, 31 bytes. None at the end of the source.
fn read_head<S: Source>(source: &mut S) -> Result<Option<Cbw>, ItemFault>
    ensures read { IfOk result (HeadRead (S.left source.old) (S.left source.new)) }
    ensures unwaited { IfOk result (λ head. IfSome head (λ _. S.waited source.new ≡ false)) }
    ensures missed { IfErr result (HeadMissed (S.left source.old) (S.left source.new)) }
    ensures awaits { IfErr result (HeadAwaits (S.left source.old) (S.waited source.new)) }
    ensures causes { ItemCauses (S.faults source.old) (S.faults source.new) result }
{
    let mut head = [0; CBW_SIZE];
    match fill(source, &mut head)? {
        0 => Ok(None),
        CBW_SIZE => match read_cbw(&head) {
            Some(command) => Ok(Some(command)),
            None => Err(ItemFault::Bad),
        },
        _ => Err(ItemFault::Bad),
    }
}

/// Takes the next item, which stands at an offset of the input: a wrapper, and the data that the host sends behind it. None at
/// the end of the source. `Bad`: a byte stands there, and no item that ends within 2^40 bytes. Of what stands there 31 bytes
/// are asked for, and behind a good wrapper whose item would end within the limit the data that it tells: at `Bad` so many were
/// taken, or all where there are fewer. `Failed` comes only where the source's count of faults rose; then fewer were taken.
/// Behind an item no byte is waited for, nor behind what was asked for at `Bad` (USB Mass Storage Class, Bulk-Only Transport
/// 1.0, 5.3; the limit: profile).
pub fn next_item<S: Source, P: Lender>(
    source: &mut S,
    lender: &mut P,
    offset: u64,
) -> Result<Option<Taken>, ItemFault>
    requires near { offset ≤ input_limit }
    ensures read { IfOk result (ItemRead input_limit offset (P.stock lender.old).free (S.left source.old) (S.left source.new)) }
    ensures unwaited { IfOk result (λ item. IfSome item (λ _. S.waited source.new ≡ false)) }
    ensures missed { IfErr result (ItemMissed input_limit offset (S.left source.old) (S.left source.new)) }
    ensures awaits { IfErr result (ItemAwaits input_limit offset (S.left source.old) (S.waited source.new)) }
    ensures causes { ItemCauses (S.faults source.old) (S.faults source.new) result }
    ensures lent { HasLent (given_pages pages_read result) (P.stock lender.old) (P.stock lender.new) }
{
    let Some(command) = read_head(source)? else {
        return Ok(None);
    };
    let length = sent_length(&command);
    if INPUT_LIMIT - offset < CBW_SIZE as u64 + u64::from(length) {
        return Err(ItemFault::Bad);
    }
    match pull_data(source, lender, length) {
        Ok(body) => Ok(Some(Taken { command, body })),
        Err(PullError::Short) => Err(ItemFault::Bad),
        Err(PullError::Failed) => Err(ItemFault::Failed),
    }
}
