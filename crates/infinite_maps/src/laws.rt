//! Laws, as functions that do nothing.

ghost use Rattle.infinite_maps.specs.Laws.{AllLayersStay};

/// States that cells and objects of an edited map stay where they stood, and does nothing.
pub fn layers_stay()
    ensures { AllLayersStay }
{}
