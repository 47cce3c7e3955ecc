// The public calls on examples and at their limits, a module for each layer. They stand apart from the layers so that
// proving a trial does not prove its layer again.

#![tactic(auto)]

#[cfg(test)]
mod charts_tried;
#[cfg(test)]
mod flows_tried;
#[cfg(test)]
mod places_tried;
#[cfg(test)]
mod walk_tried;
