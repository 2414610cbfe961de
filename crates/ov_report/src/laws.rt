//! Laws of beginning a store.
ghost use Rattle.ov_report.specs.Laws.{StandingImagesOpen};

/// No image that stands for a history is refused. The function does nothing.
pub fn standing_images_open()
    ensures { StandingImagesOpen }
{}
