//! Worked logs, each the contract of a function that does nothing.
ghost use Rattle.log_text.specs.Examples.{OneRunIsPrinted, TwoPartsAreLegal, TwoPartsArePrinted};

/// The run of one rule, as it is printed.
pub fn one_run_is_printed()
    ensures { OneRunIsPrinted }
{}

/// Two runs behind a cleaning, as they are printed, with retries, a loss and a dropped file.
pub fn two_parts_are_printed()
    ensures legal { TwoPartsAreLegal }
    ensures printed { TwoPartsArePrinted }
{}
