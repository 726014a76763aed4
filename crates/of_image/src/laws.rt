//! Laws of images.

ghost use Rattle.of_image.specs.Parsed.{HasOneFault, OneImage, UnlawfulHaveNone};
ghost use Rattle.of_image.specs.Parsed.{PlanImagesAreTableImages, SmallTableImagesArePlanImages};
ghost use Rattle.of_image.specs.RunImage.{RecordsHaveImages};

/// The text of the durable words that a run leaves has an image, with the sequence and the store of
/// the run's report. A start from this image has the tickets that recovery finds.
pub fn records_have_images()
    ensures { RecordsHaveImages }
{}

/// A text has at most one image.
pub fn one_image()
    ensures { OneImage }
{}

/// A text with a cell at fault has no image, and only one cell of it is the first at fault.
pub fn unlawful_have_none()
    ensures none { UnlawfulHaveNone }
    ensures one { HasOneFault }
{}

/// The limits of a plan and those of a table differ only in how large an image may be.
pub fn limits_read_alike()
    ensures wider { PlanImagesAreTableImages }
    ensures narrower { SmallTableImagesArePlanImages }
{}
