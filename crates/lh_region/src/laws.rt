//! Laws of regions by ids. Each is the contract of a function that does nothing, so that other crates can cite it.
ghost use Rattle.lh_region.specs.Heads.{HeadsAgree};
ghost use Rattle.lh_region.specs.Operands.{OperandsAgree};
ghost use Rattle.lh_region.specs.Targets.{TargetByWays};

/// The head by ids is the head of the text.
pub fn head_law()
    ensures { HeadsAgree }
{}

/// The operand of a `phi` by ids is the operand of the text.
pub fn operand_law()
    ensures { OperandsAgree }
{}

/// The block for which all ends wait depends on the ways of the ends alone.
pub fn target_law()
    ensures { TargetByWays }
{}
