//! A standard output, or a standard error, that fails, is interrupted or takes nothing once it is full.
use super::*;

/// What a full output does with the next byte.
#[derive(Clone, Copy)]
enum WhenFull {
    Fails,
    IsInterrupted,
    TakesNothing,
}

/// Takes so many bytes, one at a time, and is full then.
#[derive(Drop)]
struct Full {
    taken: Vec<u8>,
    room: usize,
    when_full: WhenFull,
}

impl Write for Full {
    fn write(&mut self, buf: &[u8]) -> io::Result<usize> {
        let Some(first) = buf.first() else {
            return Ok(0);
        };
        if self.taken.len() >= self.room {
            return match self.when_full {
                WhenFull::Fails => Err(io::Error::from(io::ErrorKind::Other)),
                WhenFull::IsInterrupted => Err(io::Error::from(io::ErrorKind::Interrupted)),
                WhenFull::TakesNothing => Ok(0),
            };
        }
        self.taken.push(*first)?;
        Ok(1)
    }

    fn flush(&mut self) -> io::Result<()> {
        Ok(())
    }
}

/// A call on a script F, what it prints and says where there is room, and its status then.
struct Row {
    words: &'static str,
    script: &'static str,
    printed: &'static str,
    said: &'static str,
    status: u8,
}

static PRINTED: [Row; 3] = [
    Row {
        words: "replay F",
        script: "(main (foo))",
        printed: "refused 5 at 7\n",
        said: "F:1:8: `foo` is no word of a form: did you mean `for`?\n(main (foo))\n       ^\n",
        status: REFUSED,
    },
    Row {
        words: "check F",
        script: "(main (cede))",
        printed: "fibers 1 queues 0\n",
        said: "",
        status: ENDED,
    },
    Row {
        words: "replay F",
        script: "(main (pure 5))",
        printed: "fiber 0 succeeded 5\n",
        said: "",
        status: ENDED,
    },
];

/// An output with so much room.
fn output(alloc: Global, room: usize, when_full: WhenFull) -> Full {
    Full {
        taken: Vec::new(alloc),
        room,
        when_full,
    }
}

/// The run of the program that a row calls, into these outputs.
fn run_into(rt: &impl Machine, row: &Row, out: Full, err: Full) -> Result<Ran, AllocError> {
    let alloc = rt.alloc();
    let words = words_of(alloc, row.words)?;
    let texts = [("F", whole(row.script.as_bytes()))];
    let mut texts = Texts { texts: &texts };
    let mut out = Stream::new(out);
    let mut err = Stream::new(err);
    let status = command(
        rt,
        alloc,
        &words,
        &mut texts,
        &mut out,
        &mut err,
        &mut Nobody,
    );
    Ok(Ran {
        status,
        out: out.into_writer().taken,
        err: err.into_writer().taken,
    })
}

/// Did the run of a row print as much as there is room for, and tell where that is not all?
fn is_cut(ran: &Ran, row: &Row, room: usize) -> bool {
    let printed = row.printed.as_bytes();
    if room < printed.len() {
        ran.has(FAULT, &printed[..room], b"fault write\n")
    } else {
        ran.has(row.status, printed, row.said.as_bytes())
    }
}

/// Room for all that is printed or said.
const AMPLE: usize = 4096;

/// Sees that of an output with so much room.
fn assert_cut(rt: &impl Machine, row: &Row, room: usize, when_full: WhenFull) -> Result<(), Fail> {
    let out = output(rt.alloc(), room, when_full);
    let ran = run_into(rt, row, out, output(rt.alloc(), AMPLE, when_full))?;
    assert!(rt; is_cut(&ran, row, room), "{}, room for {room}", row.script);
    Ok(())
}

#[test]
fn output_that_is_full_has_a_prefix_of_the_text(rt: HostRuntime) -> Result<(), Fail> {
    for row in &PRINTED {
        for room in 0..=row.printed.len() {
            assert_cut(&rt, row, room, WhenFull::Fails)?;
            assert_cut(&rt, row, room, WhenFull::IsInterrupted)?;
            assert_cut(&rt, row, room, WhenFull::TakesNothing)?;
        }
    }
    Ok(())
}

/// Sees that with so much room for what is said a prefix of that is, and all else is as ever.
fn assert_said(rt: &impl Machine, row: &Row, room: usize, when_full: WhenFull) -> Result<(), Fail> {
    let err = output(rt.alloc(), room, when_full);
    let ran = run_into(rt, row, output(rt.alloc(), AMPLE, when_full), err)?;
    let said = row.said.as_bytes();
    let said = &said[..room.min(said.len())];
    assert!(rt;
        ran.has(row.status, row.printed.as_bytes(), said),
        "{}, room for {room}",
        row.script
    );
    Ok(())
}

#[test]
fn standard_error_that_is_full_has_a_prefix_of_the_words(rt: HostRuntime) -> Result<(), Fail> {
    for row in &PRINTED {
        for room in 0..=row.said.len() {
            assert_said(&rt, row, room, WhenFull::Fails)?;
            assert_said(&rt, row, room, WhenFull::TakesNothing)?;
        }
    }
    Ok(())
}
