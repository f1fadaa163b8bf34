#![tactic(auto)]

// The constants that code reads are the numbers of the definitions: both ends of each quantity, the ends of the study text's fields, how much of each thing
// there may be, and where the sections of the records begin. The functions promise that and nothing else.
ghost use Rattle.std.specs.Prelude.{◌+◌, ◌≡◌};
ghost use Rattle.whole.specs.Plain.{pos, neg_ℤ};
ghost use Rattle.paper.specs.Limits as Limits;
ghost use Rattle.paper.specs.Records.{counts, voltages, currents, to_currents, histories, peaks, peak_steps, latches};
ghost use Rattle.paper.specs.Records.{sections_end};
ghost use Rattle.paper.specs.declared.sections.TheConstants as sections;

use paper::{
    Balance, Conductance, Current, Farads, Frequency, Henries, History, Injection, Node, Ohms,
    Rise, Room, Start, StepLength, Steps, Switching, Travel, Voltage, sections,
};

fn quantities_agree()
    ensures voltage_min { Voltage.MIN ≡ neg_ℤ (pos Limits.voltage_end) }
    ensures voltage_max { Voltage.MAX ≡ pos Limits.voltage_end }
    ensures history_min { History.MIN ≡ neg_ℤ (pos Limits.history_end) }
    ensures history_max { History.MAX ≡ pos Limits.history_end }
    ensures current_min { Current.MIN ≡ neg_ℤ (pos Limits.current_end) }
    ensures current_max { Current.MAX ≡ pos Limits.current_end }
    ensures injection_min { Injection.MIN ≡ neg_ℤ (pos Limits.injection_end) }
    ensures injection_max { Injection.MAX ≡ pos Limits.injection_end }
    ensures conductance_min { Conductance.MIN ≡ Limits.conductance_low }
    ensures conductance_max { Conductance.MAX ≡ Limits.conductance_end }
    ensures node_min { Node.MIN ≡ pos Limits.node_low }
    ensures node_max { Node.MAX ≡ pos Limits.node_end }
    ensures node_places { Node.PLACES ≡ Limits.node_end + 1 }
    ensures step_length_min { StepLength.MIN ≡ pos Limits.step_length_low }
    ensures step_length_max { StepLength.MAX ≡ pos Limits.step_length_end }
    ensures steps_min { Steps.MIN ≡ pos Limits.steps_low }
    ensures steps_max { Steps.MAX ≡ pos Limits.steps_end }
    ensures balance_min { Balance.MIN ≡ pos Limits.limit_low }
    ensures balance_max { Balance.MAX ≡ pos Limits.limit_end }
{}

fn fields_agree()
    ensures ohms_min { Ohms.MIN ≡ pos Limits.ohms_low }
    ensures ohms_max { Ohms.MAX ≡ pos Limits.ohms_end }
    ensures henries_min { Henries.MIN ≡ pos Limits.henry_low }
    ensures henries_max { Henries.MAX ≡ pos Limits.henry_end }
    ensures farads_min { Farads.MIN ≡ pos Limits.farad_low }
    ensures farads_max { Farads.MAX ≡ pos Limits.farad_end }
    ensures travel_min { Travel.MIN ≡ pos Limits.travel_low }
    ensures travel_max { Travel.MAX ≡ pos Limits.travel_end }
    ensures switching_min { Switching.MIN ≡ pos Limits.close_low }
    ensures switching_max { Switching.MAX ≡ pos Limits.open_end }
    ensures start_min { Start.MIN ≡ pos Limits.start_low }
    ensures start_max { Start.MAX ≡ pos Limits.start_end }
    ensures rise_min { Rise.MIN ≡ pos Limits.rise_low }
    ensures rise_max { Rise.MAX ≡ pos Limits.rise_end }
    ensures frequency_min { Frequency.MIN ≡ pos Limits.frequency_low }
    ensures frequency_max { Frequency.MAX ≡ pos Limits.frequency_end }
{}

fn room_agrees()
    ensures branches { Room.BRANCHES ≡ Limits.branch_end }
    ensures sources { Room.SOURCES ≡ Limits.source_end }
    ensures rows { Room.ROWS ≡ Limits.row_end }
    ensures text { Room.TEXT ≡ Limits.text_end }
    ensures network { Room.NETWORK ≡ Limits.network_words }
    ensures records { Room.RECORDS ≡ Limits.record_words }
    ensures store { Room.STORE ≡ Limits.store_words }
    ensures step_bytes { Room.STEP_BYTES ≡ Limits.step_bytes }
    ensures study_bytes { Room.STUDY_BYTES ≡ Limits.study_bytes }
{}

fn sections_agree()
    ensures counts { sections.COUNTS ≡ counts.start }
    ensures volts { sections.VOLTS ≡ voltages.start }
    ensures currents { sections.CURRENTS ≡ currents.start }
    ensures to_currents { sections.TO_CURRENTS ≡ to_currents.start }
    ensures histories { sections.HISTORIES ≡ histories.start }
    ensures peaks { sections.PEAKS ≡ peaks.start }
    ensures peak_steps { sections.PEAK_STEPS ≡ peak_steps.start }
    ensures latches { sections.LATCHES ≡ latches.start }
    ensures end { sections.END ≡ sections_end }
{}
