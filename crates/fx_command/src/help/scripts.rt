//! Pages of help on scripts, and on what stands at their top.
ghost use Rattle.std.specs.Prelude.{◌≡◌, option_map};
ghost use Rattle.fx_command.specs.Help.{script_page};

const FORMS: &str = "\
A script is queues, if it has any, and then main. A capital letter is a term
here; x, y, z, e and i are names that a form gives, as p in mask and h in start;
v is a number or the name of a value, n a number, p the name of a poll, h and k
those of fibers, and q that of a queue. There is a page on each form, as fibers
help let.

(queue q n)                 a queue of at most n elements, from 1 to 1024
(main T)                    what the main fiber runs

(pure v)                    gives v
(raise v)                   errs with v
(canceled)                  cancels the fiber that runs it
(never)                     does not end
(cede)                      yields to other fibers, and gives 0

(seq A B ..)                one after the other; gives the value of the last
(let x A B)                 B, with x as the value of A
(handle A x B)              A, and where it errs B, with x as the error
(if v A B)                  A where v is not 0, else B
(for i n A)                 A with i from 0 to below n, in order; gives 0

(mask p A)                  A with cancellation kept out; p is its poll
(poll p A)                  A with the mask of p taken off
(oncancel A F)              A, and F where the fiber is canceled in A

(bracket x A U R)           acquires x by A, uses it in U, releases it by R
(bracketcase x A U (y S) (z E) C)
                            the same; R is S where U succeeded with y, E where
                            it erred with z, C where it was canceled
(guarantee A F)             A, and then F, whatever A came to
(using ((x A R) ..) U)      acquires each x by A, uses them in U, releases by R
(forcer A B)                A, and then B where A succeeded or erred

(start h A B)               A in a new fiber h, and then B
(join h (x S) (e E) C)      waits for h: S where it succeeded with x, E where it
                            erred with e, C where it was canceled
(cancel h)                  cancels h, waits until it has ended, and gives 0
(first h k)                 waits until one has ended; gives 0 for h, 1 for k
(race A B)                  A and B in new fibers; the outcome of the first to
                            succeed or err, and the other is canceled

(offer q v)                 waits for room, puts v at the back, and gives 0
(take q)                    waits for an element, takes the one at the front
(tryoffer q v)              puts v at the back and gives 1; 0 where q is full
(trytake q x A B)           takes the front element as x for A; B if q is empty
";

const QUEUE: &str = "\
(queue q n)

A queue of the name q, which holds at most n elements, n from 1 to 1024. A
script begins with its queues, at most 16 of them. Elements are numbers; the
first in is the first out.

    $ echo '(queue q 2) (main (seq (offer q 1) (offer q 2)))' | fibers
    fiber 0 succeeded 0
    queue q left 1 2
";

const MAIN: &str = "\
(main T)

What the main fiber, number 0, runs. It stands once, at the end of a script.

    $ echo '(main (pure 5))' | fibers
    fiber 0 succeeded 5
";

/// The page on the table of forms, or on what stands at the top of a script.
pub(super) fn page_on(word: &str) -> Option<&'static str>
    ensures { option_map (λ page. page.now) result ≡ script_page word.now }
{
    match word {
        "forms" => Some(FORMS),
        "queue" => Some(QUEUE),
        "main" => Some(MAIN),
        _ => None,
    }
}
