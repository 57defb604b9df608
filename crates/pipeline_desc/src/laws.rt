//! What descriptions mean that are written out, and what holds of every plan.
ghost use Rattle.pipeline_desc.specs.Laws.{NodesRunAlike, WrittenPathsStandAlone};
ghost use Rattle.pipeline_desc.specs.Worked.{DocumentsMean, KindsMean, LogMeans, LookupsMean, MostStreamsMean, OutputsMean, RowsFollow, SeveralStreamsMean, SidesMean, StepsMean, StreamsMean, TablesMean, TopsMean, TwoMean, UntilMeans};
ghost use Rattle.pipeline_desc.specs.WorkedParts.{GroupsMean, ListsMean, MostPartsMean, OneGroupMeans, PartsFollow, PartsMean, VersionsMean};

/// Descriptions that are plans, or refused for the first of their faults, and the rows of a plan.
pub fn worked()
    ensures documents { DocumentsMean }
    ensures tops { TopsMean }
    ensures tables { TablesMean }
    ensures streams { StreamsMean }
    ensures steps { StepsMean }
    ensures lookups { LookupsMean }
    ensures sides { SidesMean }
    ensures outputs { OutputsMean }
    ensures kinds { KindsMean }
    ensures log { LogMeans }
    ensures several { SeveralStreamsMean }
    ensures until { UntilMeans }
    ensures most { MostStreamsMean }
    ensures two { TwoMean }
    ensures rows { RowsFollow }
{}

/// Descriptions of the second version: groups and a list, with the rows of a plan that has both.
pub fn worked_parts()
    ensures versions { VersionsMean }
    ensures parts { PartsMean }
    ensures group { OneGroupMeans }
    ensures groups { GroupsMean }
    ensures lists { ListsMean }
    ensures most { MostPartsMean }
    ensures rows { PartsFollow }
{}

/// Two nodes of one stream run alike: they differ only in where their boxes lie.
pub fn nodes_run_alike()
    ensures { NodesRunAlike }
{}

/// The path of a row that is written is that of no other row.
pub fn written_paths_stand_alone()
    ensures { WrittenPathsStandAlone }
{}
