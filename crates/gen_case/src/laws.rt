//! What holds of every case.
ghost use Rattle.gen_case.specs.Ideal.{IdealFramesAddUp, LinesHaveTheirBytes};
ghost use Rattle.gen_case.specs.Plan.{PlansAreSound};
ghost use Rattle.gen_case.specs.Runs.{FilesAreFound, NodesNeverFail, NodesRunIdeal};
ghost use Rattle.gen_case.specs.Rendering.{StreamsRenderIdeal, TableIsRead};

/// The frames of a run that printed all of its streams add up to what the case says.
pub fn ideal_frames_add_up()
    ensures { IdealFramesAddUp }
{}

/// How many bytes are read and printed.
pub fn lines_have_their_bytes()
    ensures { LinesHaveTheirBytes }
{}

/// The parts of a case's plan make a plan.
pub fn plans_are_sound()
    ensures { PlansAreSound }
{}

/// The table's file is a table, and what the steps give of the whole files is what the case says.
pub fn streams_render_ideal()
    ensures table { TableIsRead }
    ensures streams { StreamsRenderIdeal }
{}

/// Each file of a case has a path of its own.
pub fn files_are_found()
    ensures { FilesAreFound }
{}

/// What the streams of a case do over its files.
pub fn streams_run_over_files()
    ensures ideal { NodesRunIdeal }
    ensures unfailed { NodesNeverFail }
{}
