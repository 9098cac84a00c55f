// What the words of the program ask for.
use crate::replaying::{pieces, run};
use satl_top::Status;
use std::alloc::Global;
use std::process::Abort;
use std::test::Fail;

/// The totals of a load of no requests.
const NO_REQUESTS: &[u8] = b"seed 1\nrequests 0\ngood 0\ncheck 0\nfull 0\ndata 0\nsum 0\n";

/// The program ends so with these words and an empty input, and writes this.
fn expect_words(
    rt: &impl Abort,
    alloc: Global,
    words: &[&str],
    status: Status,
    output: &[u8],
) -> Result<(), Fail> {
    let (ended, written) = run(alloc, words, Vec::new(alloc), pieces(65536))?;
    assert_eq!(rt; ended, status);
    assert_eq!(rt; written.as_slice(), output);
    Ok(())
}

/// A load by plain words, and by words that clap takes.
#[test]
fn load_of_no_requests(rt: HostRuntime) -> Result<(), Fail> {
    let alloc = rt.alloc();
    for words in [
        ["gen", "--seed", "1", "--requests", "0"],
        ["gen", "--requests", "0", "--seed", "1"],
        ["gen", "--seed", "+1", "--requests", "000"],
    ] {
        expect_words(&rt, alloc, &words, Status::Done, NO_REQUESTS)?;
    }
    let joined = ["gen", "--seed=1", "--requests=0"];
    expect_words(&rt, alloc, &joined, Status::Done, NO_REQUESTS)
}

/// Words that ask for nothing, and numbers that are too great.
#[test]
fn words_refused(rt: HostRuntime) -> Result<(), Fail> {
    let alloc = rt.alloc();
    for word in ["gen", "repaly", "--help", "--version", "help"] {
        expect_words(&rt, alloc, &[word], Status::Usage, b"")?;
    }
    expect_words(&rt, alloc, &[], Status::Usage, b"")?;
    expect_words(&rt, alloc, &["replay", "show"], Status::Usage, b"")?;
    let many = ["gen", "--seed", "1", "--requests", "100001"];
    expect_words(&rt, alloc, &many, Status::Usage, b"")
}
