//! The picture of a fiber that is canceled while the main fiber waits, of one that waits for good, of an element that goes from
//! one to another, and of too many events.
use fx_model::{FiberReport, Report, Source, State};
use fx_picture::{EventAt, Handle, MOST_EVENTS, PictureFault, Stood, format_picture};
use fx_report::{Blocked, Wait};
use fx_term::Event::{Acquired, Awaited, Cancelled, Ended, First, Got, Put, Request, Seen, Start};
use fx_term::Outcome::{Canceled, Succeeded};
use fx_term::{Event, Stamped};
use fx_text::{Position, parse};
use std::alloc::{AllocError, Global};
use std::test::Fail;

/// Where fibers stood in that run: the main fiber at its first event, and the other one at its first two.
static STOOD: [Stood; 3] = [
    Stood {
        fiber: 1,
        position: Some(Position { line: 3, column: 7 }),
        is_open: true,
        cause: None,
        held: None,
    },
    Stood {
        fiber: 0,
        position: Some(Position { line: 1, column: 7 }),
        is_open: false,
        cause: None,
        held: None,
    },
    Stood {
        fiber: 1,
        position: None,
        is_open: false,
        cause: None,
        held: None,
    },
];

/// What stands in the picture: rows are 18 apart from 64 on, and lanes 112 from 260 on.
static DRAWN: [&str; 18] = [
    "<svg xmlns=\"http://www.w3.org/2000/svg\" role=\"img\" width=\"484\" height=\"432\"><title>",
    "<desc>2 fibers and 7 events. Each fiber",
    "<line class=\"lane\" x1=\"260\" y1=\"44\" x2=\"260\" y2=\"200\"></line>",
    "<text class=\"name\" x=\"372\" y=\"20\">fiber 1 a&lt;b</text>",
    "<text class=\"ended\" x=\"260\" y=\"36\">succeeded 6</text>",
    "<text class=\"ended\" x=\"372\" y=\"218\">canceled</text>",
    "<line class=\"life\" x1=\"260\" y1=\"64\" x2=\"260\" y2=\"172\"><title>",
    "<line class=\"unwinding\" x1=\"372\" y1=\"118\" x2=\"372\" y2=\"136\"><title>",
    "<line class=\"masked\" x1=\"252\" y1=\"64\" x2=\"252\" y2=\"172\"><title>closed: no cancellation acts<",
    "<line class=\"masked\" x1=\"364\" y1=\"118\" x2=\"364\" y2=\"136\"><title>",
    "<line class=\"arrow start\" x1=\"260\" y1=\"64\" x2=\"372\" y2=\"100\"></line>",
    "<line class=\"arrow cancel dashed\" x1=\"260\" y1=\"82\" x2=\"372\" y2=\"100\"></line>",
    "<line class=\"arrow end\" x1=\"372\" y1=\"136\" x2=\"260\" y2=\"154\"></line>",
    "<circle class=\"start\" cx=\"260\" cy=\"64\" r=\"5\"><title>0 1 start 1 at 1:7 closed</title>\n</circle>",
    "<title>1 3 seen at 3:7</title>",
    "<title>1 4 cancelled closed</title>",
    "<circle class=\"gone\" cx=\"372\" cy=\"136\" r=\"5\"><title>1 5 ended canceled</title>\n</circle>",
    "<circle class=\"end\" cx=\"260\" cy=\"172\" r=\"5\"><title>0 7 ended succeeded 6</title>\n</circle>\n</svg>\n",
];

/// What stands in that of a fiber which does nine things, of which the first is no part of a run, and ends.
static FOLDED: [&str; 5] = [
    "width=\"484\" height=\"432\"><title>",
    "<circle class=\"put\" cx=\"260\" cy=\"64\" r=\"5\"><title>0 1 put jobs 0</title>\n</circle>",
    "<g class=\"fold\"><title>8 events:&#10;0 2 put jobs 1&#10;0 3 put jobs 2&#10;0 4 put jobs 3&#10;0 5 put jobs 4",
    "<rect x=\"246\" y=\"75\" width=\"28\" height=\"14\"></rect>\n<text class=\"count\" x=\"260\" y=\"86\">8</text>\n</g>",
    "<text class=\"visited\" x=\"382\" y=\"86\">8 times</text>",
];

/// What stands in that of a fiber which waits, holds a resource and has put an element.
static HELD: [&str; 7] = [
    "width=\"484\" height=\"432\"><title>",
    "<text class=\"name\" x=\"372\" y=\"20\">queue jobs</text>",
    "<text class=\"waits\" x=\"260\" y=\"36\">blocked</text>",
    "<text class=\"waits\" x=\"260\" y=\"144\">room in jobs</text>",
    "<line class=\"holding open\" x1=\"268\" y1=\"64\" x2=\"268\" y2=\"110\"><title>holds its resource 0<",
    "<line class=\"visit put\" x1=\"260\" y1=\"82\" x2=\"372\" y2=\"82\"></line>",
    "<text class=\"visited\" x=\"382\" y=\"86\">+3</text>",
];

/// What stands in that of a fiber which takes what another one puts, and finds that this has ended, where both are told.
static TAKEN: [&str; 6] = [
    "<line class=\"arrow put\" x1=\"372\" y1=\"82\" x2=\"260\" y2=\"100\"></line>",
    "<line class=\"arrow end\" x1=\"372\" y1=\"118\" x2=\"260\" y2=\"136\"></line>",
    "<text class=\"holds\" x=\"484\" y=\"86\">1</text>",
    "<text class=\"holds\" x=\"484\" y=\"104\">0</text>",
    "<title>1 2 put jobs 7 holds 1</title>",
    "<title>0 3 got jobs 7 holds 0</title>",
];

/// The arrow to who takes the first of nine elements, where the others stand in one row; and the second one, where
/// each has its own.
const FIRST_TAKEN: &str =
    "<line class=\"arrow put\" x1=\"260\" y1=\"64\" x2=\"372\" y2=\"118\"></line>";

const SECOND_TAKEN: &str =
    "<line class=\"arrow put\" x1=\"260\" y1=\"82\" x2=\"372\" y2=\"262\"></line>";

fn stamped(stamp: u64, event: Event) -> Stamped {
    Stamped { event, stamp }
}

fn fiber(
    alloc: Global,
    id: u32,
    state: State,
    trace: &[Stamped],
) -> Result<FiberReport, AllocError> {
    Ok(FiberReport {
        id,
        parent: None,
        state,
        trace: Vec::from_slice(alloc, trace)?,
    })
}

fn report_with(alloc: Global, fibers: Vec<FiberReport>) -> Report {
    Report {
        fibers,
        left: Vec::new(alloc),
        outside: Vec::new(alloc),
        late: 0,
    }
}

fn report_of(alloc: Global, main: &[Stamped], child: &[Stamped]) -> Result<Report, AllocError> {
    let mut fibers = Vec::new(alloc);
    fibers.push(fiber(alloc, 0, State::Ended, main)?)?;
    fibers.push(fiber(alloc, 1, State::Ended, child)?)?;
    Ok(report_with(alloc, fibers))
}

/// The main fiber holds a resource, has put an element, and waits.
fn waiting(alloc: Global) -> Result<Report, AllocError> {
    let main = [stamped(1, Acquired(0)), stamped(2, Put(0, 3))];
    let mut fibers = Vec::new(alloc);
    fibers.push(fiber(alloc, 0, State::Blocked, &main)?)?;
    Ok(report_with(alloc, fibers))
}

/// Nine puts, one after the other, and an end.
fn nine_puts(alloc: Global) -> Result<Vec<Stamped>, AllocError> {
    let mut trace = Vec::new(alloc);
    for value in 0..9u64 {
        trace.push(stamped(value + 1, Put(0, value)))?;
    }
    trace.push(stamped(10, Ended(Succeeded(6))))?;
    Ok(trace)
}

/// The main fiber puts nine elements, and ends.
fn looping(alloc: Global) -> Result<Report, AllocError> {
    let mut fibers = Vec::new(alloc);
    fibers.push(fiber(alloc, 0, State::Ended, &nine_puts(alloc)?)?)?;
    Ok(report_with(alloc, fibers))
}

/// The main fiber takes what the other one puts, and then finds that this has ended.
fn taking(alloc: Global) -> Result<Report, AllocError> {
    let main = [
        stamped(1, Start(1)),
        stamped(3, Got(0, 7)),
        stamped(4, First(0)),
        stamped(5, Ended(Succeeded(6))),
    ];
    let child = [stamped(2, Put(0, 7)), stamped(3, Ended(Succeeded(0)))];
    report_of(alloc, &main, &child)
}

/// An event of that fiber, at an open place, which this one caused, and after which its queue holds so many elements.
fn told(fiber: u32, cause: Option<EventAt>, held: Option<usize>) -> Stood {
    Stood {
        fiber,
        position: None,
        is_open: true,
        cause,
        held,
    }
}

fn canceled(alloc: Global) -> Result<Report, AllocError> {
    let main = [
        stamped(1, Start(1)),
        stamped(2, Request(1)),
        stamped(6, Awaited(1)),
        stamped(7, Ended(Succeeded(6))),
    ];
    let child = [
        stamped(3, Seen),
        stamped(4, Cancelled),
        stamped(5, Ended(Canceled)),
    ];
    report_of(alloc, &main, &child)
}

#[test]
fn draws_marks_and_arrows(rt: HostRuntime) -> Result<(), Fail> {
    let script = parse(rt.alloc(), b"(main (pure 6))")?;
    let handles = [Handle {
        fiber: 1,
        name: String::from_str(rt.alloc(), "a<b")?,
    }];
    let text = format_picture(
        rt.alloc(),
        &script,
        &canceled(rt.alloc())?,
        &STOOD,
        &handles,
        &[],
    )?;
    for drawn in &DRAWN {
        assert!(rt; text.contains(*drawn));
    }
    Ok(())
}

#[test]
fn draws_what_is_held_and_waited_for(rt: HostRuntime) -> Result<(), Fail> {
    let script = parse(rt.alloc(), b"(queue jobs 1) (main (pure 6))")?;
    let blocked = [Blocked {
        wait: Wait {
            fiber: 0,
            source: Source::Room(0),
        },
        node: None,
    }];
    let text = format_picture(
        rt.alloc(),
        &script,
        &waiting(rt.alloc())?,
        &[],
        &[],
        &blocked,
    )?;
    for drawn in &HELD {
        assert!(rt; text.contains(*drawn));
    }
    Ok(())
}

#[test]
fn draws_what_is_told_of_a_queue(rt: HostRuntime) -> Result<(), Fail> {
    let script = parse(rt.alloc(), b"(queue jobs 1) (main (pure 6))")?;
    let put = EventAt { fiber: 1, place: 0 };
    let end = EventAt { fiber: 1, place: 1 };
    let stood = [
        told(0, None, None),
        told(1, None, Some(1)),
        told(0, Some(put), Some(0)),
        told(0, Some(end), None),
    ];
    let text = format_picture(rt.alloc(), &script, &taking(rt.alloc())?, &stood, &[], &[])?;
    for drawn in &TAKEN {
        assert!(rt; text.contains(*drawn));
    }
    Ok(())
}

#[test]
fn folds_a_loop(rt: HostRuntime) -> Result<(), Fail> {
    let script = parse(rt.alloc(), b"(queue jobs 1) (main (pure 6))")?;
    let text = format_picture(rt.alloc(), &script, &looping(rt.alloc())?, &[], &[], &[])?;
    for drawn in &FOLDED {
        assert!(rt; text.contains(*drawn));
    }
    Ok(())
}

/// Of nine puts a fiber takes the first one or two, as is told. No run has the first event of its fiber, and below the
/// second one seven are left, which is too few.
#[test]
fn folds_puts_that_caused_nothing(rt: HostRuntime) -> Result<(), Fail> {
    let script = parse(rt.alloc(), b"(queue jobs 9) (main (pure 6))")?;
    let puts = nine_puts(rt.alloc())?;
    let gots = [stamped(11, Got(0, 0)), stamped(12, Got(0, 1))];
    let stood = [0, 1].map(|place| told(1, Some(EventAt { fiber: 0, place }), None));

    let one = report_of(rt.alloc(), &puts, &gots[..1])?;
    let text = format_picture(rt.alloc(), &script, &one, &stood[..1], &[], &[])?;
    assert!(rt; text.contains(FOLDED[3]));
    assert!(rt; text.contains(FIRST_TAKEN));

    let two = report_of(rt.alloc(), &puts, &gots)?;
    let text = format_picture(rt.alloc(), &script, &two, &stood, &[], &[])?;
    assert!(rt; !text.contains("8 events:"));
    assert!(rt; text.contains(SECOND_TAKEN));
    Ok(())
}

#[test]
fn refuses_too_many_events(rt: HostRuntime) -> Result<(), Fail> {
    let script = parse(rt.alloc(), b"(main (pure 6))")?;
    let mut events = Vec::new(rt.alloc());
    for _ in 0..=MOST_EVENTS {
        events.push(stamped(1, Seen))?;
    }
    let report = report_of(rt.alloc(), &events, &[])?;
    let refused = matches!(
        format_picture(rt.alloc(), &script, &report, &[], &[], &[]),
        Err(PictureFault::TooLarge)
    );
    assert!(rt; refused);
    Ok(())
}
