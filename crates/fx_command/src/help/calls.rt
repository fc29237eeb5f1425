//! Pages of help on the words of the program, and on schedules.
ghost use Rattle.std.specs.Prelude.{◌≡◌, option_map};
ghost use Rattle.fx_command.specs.Help.{calls_page};

const HELP: &str = "\
fibers replays a script of cancellable fibers, or runs it on threads, and prints
how each fiber ended; or it visits all runs of the script.

  fibers                      as fibers replay -
  fibers check F              counts the fibers and the queues of a script
  fibers replay F [SCHEDULE]  makes the run that the schedule chooses, and
                              prints its report
  fibers trace F [SCHEDULE]   makes that run, and prints what each fiber did
  fibers steps F [SCHEDULE]   makes that run, and prints its steps
  fibers run F WORKERS        runs the fibers by 1 to 64 workers, each on a
                              thread, and prints the report
  fibers record F WORKERS     runs them so, and prints what each fiber did
  fibers picture F [SCHEDULE] makes the run that the schedule chooses, and draws
                              it, as one SVG text
  fibers picture-run F WORKERS
                              runs the fibers by so many workers, and draws that
  fibers explore F [MOST]     visits all runs, from at most so many states, and
                              prints each report that some run has
  fibers explore F [MOST] cancel N
                              visits also those in which fiber N is requested
                              from outside, at any moment
  fibers explore F [MOST] [cancel N] expect FILE
                              prints the first of these that FILE does not have
  fibers explore F .. progress
                              says on standard error how far it has come
  fibers help [WORD]          prints this page, or the one on a word

F is a file with a script, or - for standard input. SCHEDULE is a file with the
picks that choose a run. Without it the fiber with the least number that can
step makes each step.

    $ echo '(main (race (never) (pure 5)))' | fibers
    fiber 0 succeeded 5
    fiber 1 canceled
    fiber 2 succeeded 5

There are pages on check, replay, trace, steps, run, record, picture,
picture-run, explore, schedule, forms, which lists what a script is made of, and
on each form, as bracket.

Status  when
  0     all fibers have ended, a check passed, or help was printed
  0     of expect FILE: all runs were visited, and FILE has all their reports
  1     some fiber waits for good; standard error says where (not of explore);
        not of expect FILE
  1     of expect FILE: a run was found with a report that FILE does not have
  2     other words
  3     the script or the schedule is refused; standard error says where and why
  4     a file cannot be read
  5     another fault: of memory, a write, the workers, or too large a picture
  6     not all runs were visited, and so far there is no cause for status 1
";

const CHECK: &str = "\
fibers check F

Prints how many fibers the script in the file F can have, main included, and how
many queues it has. Nothing is run. F is - for standard input.

    $ echo '(queue q 1) (main (start h (take q) (offer q 7)))' | fibers check -
    fibers 2 queues 1
";

const REPLAY: &str = "\
fibers replay F [SCHEDULE]

Makes the run of the script in the file F that the schedule chooses, on one
thread, and prints its report: a line for each fiber that has started, and one
for each queue, with what is left in it from front to back. F is - for standard
input, and without a schedule the fiber with the least number that can step
makes each step. The status is 1 where some fiber is blocked: it waits for good.

    $ echo '(queue q 2) (main (start h (take q) (offer q 7)))' > script
    $ fibers replay script
    fiber 0 succeeded 0
    fiber 1 succeeded 7
    queue q left
";

const TRACE: &str = "\
fibers trace F [SCHEDULE]

Makes the run that fibers replay F [SCHEDULE] makes, and prints what each fiber
did in it, in place of a report: the number of the fiber, the stamp of the
event, which is above that of all that it stands on, and then one of

  start F, request F             started fiber F; requested its cancellation
  awaited F                      waited until F, which it canceled, had ended
  joined F OUTCOME, first N      how F ended; which of two fibers had, 0 or 1
  put q V, got q V               put V into the queue q; took it out
  refused q, empty q             found it full; found it empty
  acquired K, begin K, end K     its resource K; began its release, ended it
  seen, selfrequest, cancelled   its own cancellation
  ended OUTCOME                  how it ended

    $ echo '(main (start h (pure 1) (cancel h)))' > script
    $ fibers trace script
    0 1 start 1
    0 2 request 1
    0 6 awaited 1
    0 7 ended succeeded 0
    1 3 seen
    1 4 cancelled
    1 5 ended canceled
";

const STEPS: &str = "\
fibers steps F [SCHEDULE]

Makes the run that fibers replay F [SCHEDULE] makes, and prints its steps in the
order in which they are made, in place of a report: the number of the step, the
fiber, the line and the column of the form at which it stands, that form, open
where a request for the fiber is seen there, and closed else, and what the step
shows, in the words of fibers trace, if it shows something. A request of the
schedule has a line too, as 3 c1, and so has each pick that is passed over, with
the reason. Of a fiber that stands at no form, as with a value that goes out of
one, the form is told at which it stood last.

What stands after the first number of a line is a pick of the run: the number of
a fiber, or a request. All of these picks are a schedule that chooses the same
run.

    $ echo '(main (start h (pure 1) (cancel h)))' > script
    $ fibers steps script
    1 0 1:7 start open start 1
    2 0 1:25 cancel open request 1
    3 1 1:16 pure open seen
    4 1 1:16 pure open cancelled
    5 1 1:16 pure closed ended canceled
    6 0 1:25 cancel closed awaited 1
    7 0 1:25 cancel open ended succeeded 0
";

const RUN: &str = "\
fibers run F WORKERS

Runs the fibers of the script in the file F by so many workers, from 1 to 64,
the first on the thread of the program and each other on one of its own, and
prints the report. Which fiber steps when is up to the workers, so a script can
have several reports. F is - for standard input.

    $ echo '(main (start h (pure 3) (join h (x (pure x)) (e (pure e))
        (never))))' > script
    $ fibers run script 4
    fiber 0 succeeded 3
    fiber 1 succeeded 3
";

const RECORD: &str = "\
fibers record F WORKERS

Runs the fibers as fibers run F WORKERS does, and prints what each fiber did, in
place of a report, in the lines of fibers trace. By stamp, and then by fiber,
the events of all fibers stand in one order in which each comes after those that
it stands on.

    $ echo '(main (start h (pure 3) (join h (x (pure x)) (e (pure e))
        (never))))' > script
    $ fibers record script 4
    0 1 start 1
    0 3 joined 1 succeeded 3
    0 4 ended succeeded 3
    1 2 ended succeeded 3
";

const PICTURE: &str = "\
fibers picture F [SCHEDULE]

Makes the run that fibers replay F [SCHEDULE] makes, and draws it in place of a
report: one text in SVG, which a browser shows.

Each fiber has a lane, with the name of its handle and how it is at the end
above it, and below it what it waits for, if it is blocked. Each queue has one,
too. Time goes down: the events of all fibers stand in the one order of their
stamps, in which each comes below those that it stands on. Arrows go from a
start to the first event of its fiber, from an end to who learns of it, from a
request to who sees it, and from a put to who takes its element. Bars show how
long a fiber lives, where its clean-ups run, and what it holds. Where the
pointer rests on a mark, its line of fibers trace is shown, with the line and
the column of its form, and closed where no request would be seen. Eight events
or more of a fiber, one after the other, at queues and of resources, have one
mark with their number, and all their lines.

A run of more than 20000 events is not drawn; then the status is 5.

    $ echo '(main (start h (pure 1) (cancel h)))' > script
    $ fibers picture script | grep -c '<title>1 '
    3
";

const PICTURE_RUN: &str = "\
fibers picture-run F WORKERS

Runs the fibers as fibers run F WORKERS does, and draws the run as fibers
picture does. How many elements a queue holds, and which put a get took, are by
an order of all events in which each queue's puts and gets are allowed and leave
what it has at the end; the run may have had another such order. Where none is
found an arrow from a put to who took its element is there where that value was
put into that queue only once in the run. Where forms stand, where no request
would be seen, who found the first of two, and the names of handles are found
after the run, by making each fiber step again by what it showed; they are left
out where that takes too many steps. Of two events of which neither stands on
the other the order of the picture does not say which came first.

    $ echo '(main (start h (pure 1) (cancel h)))' > script
    $ fibers picture-run script 4 | grep -c 'fiber 1 h<'
    1
";

const EXPLORE: &str = "\
fibers explore F [MOST] [cancel N] [expect FILE] [progress]

Visits all runs of the script in the file F in which nobody is requested from
outside, and prints each report that some run has, each once, those first in
which a fiber is blocked: the word schedule with the words of a schedule under
which fibers replay has that report, or the words no schedule where none is
known; the report; and an empty line. F is - for standard input.

The last line says how many reports there are, from how many states of all
fibers the search went on, and whether it is complete, so that there are no
other reports. It is incomplete where there are more than MOST states, a number
from 1 to 4294967295, and 1000000 if it is left out, or where memory ran out.

The status is 1 where a report has a blocked fiber, 6 where none has and the
search is incomplete, and else 0. Standard error has nothing, if the last word
is not progress: what a blocked fiber waits for, fibers replay says there, by
the schedule.

    $ echo '(queue q 1) (main (start h (offer q 1) (offer q 2)))' > script
    $ fibers explore script | head -4
    schedule
    fiber 0 succeeded 0
    fiber 1 blocked
    queue q left 2
    $ fibers explore script | tail -1
    explored: 2 reports, 4 states, complete

With cancel N it visits also the runs in which fiber N is requested from
outside, once, at any moment; N may be 0, the main fiber. Then a schedule has
the pick cN where the request comes.

    $ echo '(queue q 1) (main (seq (offer q 1) (pure 2)))' > asked
    $ fibers explore asked cancel 0 | tail -1
    explored: 3 reports, 8 states, complete

With expect FILE it prints only the first of these reports that FILE does not
have, if there is one, with its schedule, and then whether all are expected.
FILE is a file with reports, which empty lines part. What explore prints can be
kept as one: the lines that begin with schedule or explored: and the line no
schedule are passed over. That FILE has more reports is no fault. The status is
1 where a report is not expected, 6 where the search is incomplete and all that
it found are, and else 0, also where a fiber is blocked.

    $ fibers explore script > expected
    $ fibers explore script expect expected
    explored: 2 reports, 4 states, all expected

With the word progress at the end standard error has a line for each second but
the first: from how many states the search has gone on, and from how many more
that it has met it is still to do so. A second search, which is made where the
first one has found a report without a schedule, begins at none again.
";

const SCHEDULE: &str = "\
A schedule chooses one run of a script. It is the text of a file, with words
that spaces or line ends part, and is followed from left to right:

  12    fiber 12 makes one step; passed over where it has not started, waits or
        has ended, and where there is no such number
  c12   the cancellation of fiber 12 is requested, also before it has started;
        passed over where there is no such number

After the last word the fiber with the least number that can step makes one
step, again and again, until none can. Main is fiber 0, and fibers check says
how many numbers there are. Standard error says how many words were passed
over, and why the first one was.

    $ echo '(main (start h (pure 1) (join h (x (pure x)) (e (pure 0))
        (pure 2))))' > script
    $ fibers replay script
    fiber 0 succeeded 1
    fiber 1 succeeded 1
    $ echo c1 > schedule
    $ fibers replay script schedule
    fiber 0 succeeded 2
    fiber 1 canceled
";

/// The page on a word of the program, or on `schedule`.
pub(super) fn page_on(word: &str) -> Option<&'static str>
    ensures { option_map (λ page. page.now) result ≡ calls_page word.now }
{
    match word {
        "help" => Some(HELP),
        "check" => Some(CHECK),
        "replay" => Some(REPLAY),
        "trace" => Some(TRACE),
        "steps" => Some(STEPS),
        "run" => Some(RUN),
        "record" => Some(RECORD),
        "picture" => Some(PICTURE),
        "picture-run" => Some(PICTURE_RUN),
        "explore" => Some(EXPLORE),
        "schedule" => Some(SCHEDULE),
        _ => None,
    }
}
