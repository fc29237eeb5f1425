//! Scripts, of which those that are worked come to one report, however their fibers interleave.

/// A script, how many fibers and queues it can have, its report, and the traces of its replay.
#[derive(Clone, Copy)]
pub struct Worked {
    pub name: &'static str,
    pub text: &'static str,
    pub counts: &'static str,
    pub report: &'static str,
    pub traces: &'static str,
}

/// Which text is printed of a script.
#[derive(Clone, Copy)]
pub enum Printed {
    Counts,
    Report,
    Traces,
}

impl Worked {
    /// That text.
    pub fn printed(&self, printed: Printed) -> &'static str {
        match printed {
            Printed::Counts => self.counts,
            Printed::Report => self.report,
            Printed::Traces => self.traces,
        }
    }
}

/// For calls that are made on no script.
pub static NONE: Worked = Worked {
    name: "",
    text: "",
    counts: "",
    report: "",
    traces: "",
};

pub static ONE: Worked = Worked {
    name: "a main fiber",
    text: "(main (pure 5))",
    counts: "",
    report: "fiber 0 succeeded 5\n",
    traces: "",
};

pub static TWO: Worked = Worked {
    name: "2 fibers",
    text: "(main (start h (pure 1) (pure 2)))",
    counts: "",
    report: "",
    traces: "",
};

pub static WORKED: [Worked; 10] = [
    Worked {
        name: "queue",
        text: "(queue q 2) (main (start a (for i 9 (offer q i)) (start b (for i 9 (take q)) (pure 9))))",
        counts: "fibers 3 queues 1\n",
        report: "fiber 0 succeeded 9\nfiber 1 succeeded 0\nfiber 2 succeeded 0\nqueue q left\n",
        traces: "0 1 start 1\n0 2 start 2\n0 3 ended succeeded 9\n1 2 put q 0\n1 3 put q 1\n1 4 put q 2\n1 5 put q 3\n\
            1 6 put q 4\n1 7 put q 5\n1 8 put q 6\n1 9 put q 7\n1 10 put q 8\n1 11 ended succeeded 0\n2 3 got q 0\n\
            2 4 got q 1\n2 5 got q 2\n2 6 got q 3\n2 7 got q 4\n2 8 got q 5\n2 9 got q 6\n2 10 got q 7\n2 11 got q 8\n\
            2 12 ended succeeded 0\n",
    },
    Worked {
        name: "brackets",
        text: "(queue q 4) (main (using ((x (pure 1) (offer q x)) (y (pure 2) (offer q y))) (canceled)))",
        counts: "fibers 1 queues 1\n",
        report: "fiber 0 canceled\nqueue q left 2 1\n",
        traces: "0 1 acquired 0\n0 2 acquired 1\n0 3 cancelled\n0 4 begin 1\n0 5 put q 2\n0 6 end 1\n0 7 begin 0\n\
            0 8 put q 1\n0 9 end 0\n0 10 ended canceled\n",
    },
    Worked {
        name: "race",
        text: "(main (race (oncancel (never) (bracket y (pure 1) (pure 2) (pure 0))) (pure 8)))",
        counts: "fibers 3 queues 0\n",
        report: "fiber 0 succeeded 8\nfiber 1 canceled\nfiber 2 succeeded 8\n",
        traces: "0 1 start 1\n0 2 start 2\n0 4 first 1\n0 5 joined 2 succeeded 8\n0 6 request 1\n0 13 awaited 1\n\
            0 14 ended succeeded 8\n1 7 seen\n1 8 cancelled\n1 9 acquired 0\n1 10 begin 0\n1 11 end 0\n1 12 ended canceled\n\
            2 3 ended succeeded 8\n",
    },
    Worked {
        name: "masks",
        text: "(queue q 4) (main (mask a (mask b (poll a (poll b (seq (canceled) (offer q 1)))))))",
        counts: "fibers 1 queues 1\n",
        report: "fiber 0 canceled\nqueue q left 1\n",
        traces: "0 1 selfrequest\n0 2 put q 1\n0 3 cancelled\n0 4 ended canceled\n",
    },
    Worked {
        name: "cancel",
        text: "(main (start h (oncancel (never) (bracket y (pure 1) (pure 2) (pure 0))) \
            (seq (cancel h) (join h (x (pure 1)) (e (pure 2)) (pure 3)))))",
        counts: "fibers 2 queues 0\n",
        report: "fiber 0 succeeded 3\nfiber 1 canceled\n",
        traces: "0 1 start 1\n0 2 request 1\n0 9 awaited 1\n0 10 joined 1 canceled\n0 11 ended succeeded 3\n1 3 seen\n\
            1 4 cancelled\n1 5 acquired 0\n1 6 begin 0\n1 7 end 0\n1 8 ended canceled\n",
    },
    Worked {
        name: "wake",
        text: "(queue q 1) (main (start a (oncancel (take q) (bracket y (pure 1) (pure 2) (pure 0))) (start b (take q) \
            (seq (cancel a) (offer q 3) (join b (x (pure x)) (e (pure 0)) (pure 1))))))",
        counts: "fibers 3 queues 1\n",
        report: "fiber 0 succeeded 3\nfiber 1 canceled\nfiber 2 succeeded 3\nqueue q left\n",
        traces: "0 1 start 1\n0 2 start 2\n0 3 request 1\n0 10 awaited 1\n0 11 put q 3\n0 14 joined 2 succeeded 3\n\
            0 15 ended succeeded 3\n1 4 seen\n1 5 cancelled\n1 6 acquired 0\n1 7 begin 0\n1 8 end 0\n1 9 ended canceled\n\
            2 12 got q 3\n2 13 ended succeeded 3\n",
    },
    Worked {
        name: "names",
        text: "(main (let a (pure 1) (let b (pure 2) (handle (raise b) e (bracket c (pure a) (raise c) (pure e))))))",
        counts: "fibers 1 queues 0\n",
        report: "fiber 0 errored 1\n",
        traces: "0 1 acquired 0\n0 2 begin 0\n0 3 end 0\n0 4 ended errored 1\n",
    },
    Worked {
        name: "mask",
        text: "(main (mask p (start h (oncancel (never) (bracket y (pure 1) (pure 2) (pure 0))) \
            (seq (cancel h) (pure 6)))))",
        counts: "fibers 2 queues 0\n",
        report: "fiber 0 succeeded 6\nfiber 1 canceled\n",
        traces: "0 1 start 1\n0 2 request 1\n0 9 awaited 1\n0 10 ended succeeded 6\n1 3 seen\n1 4 cancelled\n\
            1 5 acquired 0\n1 6 begin 0\n1 7 end 0\n1 8 ended canceled\n",
    },
    Worked {
        name: "tries",
        text: "(queue q 1) (main (seq (tryoffer q 1) (let r (tryoffer q 2) \
            (trytake q x (trytake q y (pure 9) (pure r)) (pure 8)))))",
        counts: "fibers 1 queues 1\n",
        report: "fiber 0 succeeded 0\nqueue q left\n",
        traces: "0 1 put q 1\n0 2 refused q\n0 3 got q 1\n0 4 empty q\n0 5 ended succeeded 0\n",
    },
    Worked {
        name: "shared",
        text: "(queue q 1) (main (start h (oncancel (never) (bracket y (pure 1) (pure 2) (pure 0))) \
            (let r (tryoffer q 1) (seq (cancel h) (pure r)))))",
        counts: "fibers 2 queues 1\n",
        report: "fiber 0 succeeded 1\nfiber 1 canceled\nqueue q left 1\n",
        traces: "0 1 start 1\n0 2 put q 1\n0 3 request 1\n0 10 awaited 1\n0 11 ended succeeded 1\n1 4 seen\n1 5 cancelled\n\
            1 6 acquired 0\n1 7 begin 0\n1 8 end 0\n1 9 ended canceled\n",
    },
];
