//! What a run was, and what it left.
use access_log::History;
use image_file::Image;
use kmp_base::Setup;
use report_rows::{Counts, MemoryWord};
use std::marker::Model;
use timetable::CoreEnd;

/// A finished run: what was asked for, what was loaded, what was done and how it ended.
#[derive(Drop)]
pub struct Report {
    pub setup: Setup,
    pub image: Image,
    pub history: History,
    pub cores: Vec<CoreEnd>,
    /// The words past the code that aren't 0, by rising address.
    pub words: Vec<MemoryWord>,
    pub counts: Counts,
}

impl Model for Report {
    ghost use Rattle.std.specs.Prelude.{map};
    ghost use Rattle.report_rows.specs.Ends.{end_value};
    ghost use Rattle.report_text.specs.Report.{ReportValue};

    ghost Value = { ReportValue };

    ghost view = { λ report. record {
      setup = report.setup;
      image = report.image;
      items = report.history.items;
      cores = map end_value report.cores.items;
      words = report.words.items;
      counts = report.counts.values;
    } };
}
