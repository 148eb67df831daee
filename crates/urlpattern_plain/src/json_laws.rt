//! The law of the JSON: reading undoes writing.
//!
//! The function does nothing; its contract is a theorem.

ghost use Rattle.std.specs.Prelude.{ℕ, List};
ghost use Rattle.urlpattern_inputs.specs.declared.options.UrlPatternOptions.{UrlPatternOptions};
ghost use Rattle.urlpattern_inputs.specs.InputJson.{init_read, init_tree, input_read, input_tree, match_input_read, match_input_tree, options_read, options_tree};
ghost use Rattle.urlpattern_inputs.specs.InputValues.{InitView, InputView};
ghost use Rattle.urlpattern_inputs.specs.Trees.{IsReadBack};
ghost use Rattle.urlpattern_plain.specs.PatternJson.{component_read, component_tree, inner_read, inner_tree, matcher_read, matcher_tree, pattern_read, pattern_tree};
ghost use Rattle.urlpattern_plain.specs.Values.{PlainComponentView, HasScalarFilter, HaveScalarFilters, PlainInnerView, PlainMatcherView, PlainPatternView};
ghost use Rattle.urlpattern_components.specs.declared.eight.Eight.{Eight};

/// Reading the JSON that is written of a value returns an equal value: for options, inits, inputs,
/// the texts of a match, and plain patterns with their components and matchers. Premise: each
/// filter is a Unicode scalar value, as each `char` is.
pub fn reading_undoes_writing()
    ensures options { (options : UrlPatternOptions) → IsReadBack options_tree options_read options }
    ensures init { (values : InitView) → IsReadBack init_tree init_read values }
    ensures input { (input : InputView) → IsReadBack input_tree input_read input }
    ensures match_input { (input : Eight (List ℕ))
        → IsReadBack match_input_tree match_input_read input }
    ensures inner { (value : PlainInnerView) → HasScalarFilter value
        → IsReadBack inner_tree inner_read value }
    ensures matcher { (value : PlainMatcherView) → HasScalarFilter value.inner
        → IsReadBack matcher_tree matcher_read value }
    ensures component { (value : PlainComponentView) → HasScalarFilter value.matcher.inner
        → IsReadBack component_tree component_read value }
    ensures pattern { (value : PlainPatternView) → HaveScalarFilters value
        → IsReadBack pattern_tree pattern_read value }
{}
