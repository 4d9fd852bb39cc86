// The lines of each judgement, written down by hand.
use crate::{Judgement, err_of, out_of, status_of};
use chill_base::Memory;
use kernel_base::Over;
use run_checker::Verdict;
use std::alloc::Global;
use std::test::Fail;

// Whether a judgement has this status and these texts.
fn says(
    alloc: Global,
    judgement: &Judgement,
    status: u8,
    out: &str,
    err: &str,
) -> Result<bool, Memory> {
    let written = out_of(alloc, judgement)?;
    let told = err_of(alloc, judgement)?;
    Ok(
        status_of(judgement) == status
            && written.as_slice() == out.as_bytes()
            && told.as_slice() == err.as_bytes(),
    )
}

// Whether a run of so many events has this line.
fn says_run(alloc: Global, count: u32, over: Option<Over>, line: &str) -> Result<bool, Memory> {
    let judgement = Judgement::Judged(Verdict::Yes { count, over });
    says(alloc, &judgement, 0, line, "")
}

#[test]
fn runs_are_lines(rt: HostRuntime) -> Result<(), Fail> {
    let alloc = rt.alloc();
    assert!(rt; says_run(alloc, 2, Some(Over::AllEnded), "a run of 2 events: ended\n")?);
    assert!(rt; says_run(alloc, 7, Some(Over::Still), "a run of 7 events: stuck\n")?);
    assert!(rt; says_run(alloc, 10, Some(Over::Spent), "a run of 10 events: spent\n")?);
    assert!(rt; says_run(alloc, 1, None, "a run of 1 events: open\n")?);
    Ok(())
}

#[test]
fn refusals_are_lines(rt: HostRuntime) -> Result<(), Fail> {
    let alloc = rt.alloc();
    let bad = Judgement::BadLine { line: 3 };
    assert!(rt; says(alloc, &bad, 10, "", "journal line 3: no event\n")?);
    let long = "journal of more than 20000000 units\n";
    assert!(rt; says(alloc, &Judgement::TooLong, 10, "", long)?);
    let no = Judgement::Judged(Verdict::No { at: 0 });
    assert!(rt; says(alloc, &no, 11, "", "event 0 is not allowed\n")?);
    Ok(())
}
