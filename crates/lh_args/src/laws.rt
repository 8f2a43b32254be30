//! What holds of the forms.
ghost use Rattle.lh_args.specs.Forms.{OneForm, OneSelfTest, NoFileForSelfTest};

/// No words ask for two things.
pub fn one_form()
    ensures on_file { OneForm }
    ensures self_test { OneSelfTest }
    ensures apart { NoFileForSelfTest }
{}
