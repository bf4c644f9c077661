ghost use Rattle.trips_listing_answers.specs.Listings.{ListingsTellImages};

/// A listing is a file of target text that tells an image of its text: without its comments it is exactly what `dis`
/// writes of that image, so `asm` makes the image of it.
pub fn listings_tell_images()
    ensures { ListingsTellImages }
{}
