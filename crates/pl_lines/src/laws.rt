//! What is proved of explanations. The function does nothing: its contract is the law.
ghost use Rattle.pl_lines.specs.ExplainLaw.{ExplainsBadLines};

use std::alloc::Allocator;

/// What `explain_line` answers is `None` exactly of a line that isn't bad.
pub fn explaining<A: Allocator>()
    ensures { ExplainsBadLines A }
{}
