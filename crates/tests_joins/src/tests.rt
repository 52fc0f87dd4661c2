mod counts;
mod limits;
mod made;
mod short_formulas;
mod thresholds;
