// The theorem on the drawing of a tree, on the contract of a function, so that the check asks for its proof.
ghost use Rattle.engine.specs.Shown.{DrawnShown};

/// The drawing of a complete tree that fits its sheet shows the tree, and a rule is true there just if the tree's root meets it.
pub fn drawn_shown()
    ensures { DrawnShown }
{}
