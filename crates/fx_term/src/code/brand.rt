//! Types that name a code.

use std::marker::Brand;

/// Names one code by a type, so that the types of ports can say which code their fibers run. The
/// nodes are ghost: a call that is generic in it with [`Brand`] picks them.
pub trait CodeBrand {
    ghost use Rattle.std.specs.Prelude.{List};
    ghost use Rattle.fx_term.specs.declared.node.Node.{Node};

    // the nodes of the code
    ghost nodes: { List Node };
}

impl CodeBrand for Brand {
    ghost use Rattle.std.specs.Prelude.{[]};

    ghost nodes = { [] };
}
