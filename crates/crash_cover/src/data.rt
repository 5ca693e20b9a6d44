//! Laws of images with the same data zones.
ghost use Rattle.crash_cover.specs.SameData.{DataDecidesTable};

/// A table that avoids some zones reads the same in images that differ only in those zones and in the metadata zones.
pub fn data_decides_table()
    ensures { DataDecidesTable }
{}
