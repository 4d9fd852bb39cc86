// Calls over ports that fail: what each answers, and what was written until then.
use crate::calls::status_of;
use crate::ports::{Faults, NONE, Ports};
use crate::texts::{READING, SHARED_COUNTER, SUM};
use chill_base::Memory;
use std::alloc::Global;
use std::sync::Wait;
use std::test::Fail;
use std::thread::Threads;

/// A call, which ports fail in it, and what must come of it.
#[derive(Clone, Copy)]
struct Case {
    words: &'static str,
    text: &'static str,
    faults: Faults,
    status: u8,
    out: &'static str,
    err: &'static str,
}

const RAISED: &str = "M: MODULE PUT_INT(40); CAUSE lost; END M;";

const READS: [Case; 7] = [
    Case {
        words: "run f",
        text: SUM,
        faults: NONE,
        status: 0,
        out: "3",
        err: "",
    },
    Case {
        words: "run f",
        text: SUM,
        faults: Faults { read: 1, ..NONE },
        status: 4,
        out: "",
        err: "",
    },
    Case {
        words: "run f",
        text: SUM,
        faults: Faults { read: 2, ..NONE },
        status: 4,
        out: "",
        err: "",
    },
    Case {
        words: "check g",
        text: SUM,
        faults: NONE,
        status: 4,
        out: "",
        err: "",
    },
    Case {
        words: "run f",
        text: SUM,
        faults: Faults { take: 1, ..NONE },
        status: 0,
        out: "3",
        err: "",
    },
    Case {
        words: "run f",
        text: READING,
        faults: Faults { take: 1, ..NONE },
        status: 4,
        out: "",
        err: "",
    },
    Case {
        words: "make 1",
        text: "",
        faults: Faults { read: 1, ..NONE },
        status: 0,
        out: "1 0\n2 0\n3 0\n4 1\n5 0\n6 0\n7 0\ntotal 4\n",
        err: "",
    },
];

const PUTS: [Case; 8] = [
    Case {
        words: "run f",
        text: RAISED,
        faults: NONE,
        status: 1,
        out: "40",
        err: "process 1 OUTER: exception lost\n",
    },
    Case {
        words: "run f",
        text: RAISED,
        faults: Faults { out: 2, ..NONE },
        status: 5,
        out: "4",
        err: "",
    },
    Case {
        words: "run f",
        text: RAISED,
        faults: Faults { err: 9, ..NONE },
        status: 5,
        out: "40",
        err: "process ",
    },
    Case {
        words: "check f",
        text: "",
        faults: Faults { err: 5, ..NONE },
        status: 5,
        out: "",
        err: "1:1:",
    },
    Case {
        words: "run f",
        text: "M: MODULE n := 1; END M;",
        faults: Faults { err: 1, ..NONE },
        status: 5,
        out: "",
        err: "",
    },
    Case {
        words: "format f",
        text: SUM,
        faults: Faults { out: 4, ..NONE },
        status: 5,
        out: "M :",
        err: "",
    },
    Case {
        words: "list f",
        text: "M: MODULE END M;",
        faults: Faults { out: 5, ..NONE },
        status: 5,
        out: "code",
        err: "",
    },
    Case {
        words: "run",
        text: SUM,
        faults: Faults { err: 1, ..NONE },
        status: 5,
        out: "",
        err: "",
    },
];

// Whether what must come does.
fn comes<R: Threads + Wait + Sync>(rt: &R, alloc: Global, case: &Case) -> Result<bool, Memory> {
    let mut ports = Ports::new(alloc, case.text, b"", &case.faults)?;
    let status = status_of(rt, alloc, case.words, &mut ports)?;
    Ok(status == case.status && ports.took(case.out, case.err))
}

#[test]
fn faults_of_reading(rt: HostRuntime) -> Result<(), Fail> {
    for (place, case) in READS.iter().enumerate() {
        assert!(rt; comes(&rt, rt.alloc(), case)?, "row {place}");
    }
    Ok(())
}

#[test]
fn faults_of_writing(rt: HostRuntime) -> Result<(), Fail> {
    for (place, case) in PUTS.iter().enumerate() {
        assert!(rt; comes(&rt, rt.alloc(), case)?, "row {place}");
    }
    Ok(())
}

// The shared counter, over ports that fail.
fn counted(faults: Faults, status: u8, out: &'static str) -> Case {
    Case {
        words: "run f",
        text: SHARED_COUNTER,
        faults,
        status,
        out,
        err: "",
    }
}

#[test]
fn a_library_that_breaks_off(rt: HostRuntime) -> Result<(), Fail> {
    for read in 1..3u32 {
        let case = counted(Faults { read, ..NONE }, 4, "");
        assert!(rt; comes(&rt, rt.alloc(), &case)?, "read {read}");
    }
    Ok(())
}

#[test]
fn an_output_that_breaks_off(rt: HostRuntime) -> Result<(), Fail> {
    for put in 1..6u32 {
        let (status, out) = match put {
            1 => (5, ""),
            2 => (5, "2"),
            3 => (5, "20"),
            4 => (5, "200"),
            _ => (0, "2000"),
        };
        let case = counted(Faults { out: put, ..NONE }, status, out);
        assert!(rt; comes(&rt, rt.alloc(), &case)?, "put {put}");
    }
    Ok(())
}
