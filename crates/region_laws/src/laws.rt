// Laws of regions. Each is a fact about the definitions, which a caller learns by calling the function.
ghost use Rattle.region_laws.specs.Laws.{AsksInsideLaw, RegionLocationsLaw, TextRegionsLaw};

/// A process of a typed program reads and writes a region's locations only while it has that region open.
pub fn asks_inside_law()
    ensures { AsksInsideLaw }
{}

/// An active process of a run of the text holds exactly the regions that it has open, in order.
pub fn text_regions_law()
    ensures { TextRegionsLaw }
{}

/// A region's locations are read and written by its occupant alone.
pub fn region_locations_law()
    ensures { RegionLocationsLaw }
{}
